// Texts as bytes: characters of UTF-8 and WTF-8, classes of characters, lines and columns, surrogates.
#![tactic(auto)]

pub mod alphabetic;
mod alphabetic_bounds;
mod blocks;
pub mod bytes;
pub mod class;
pub mod lossy;
pub mod position;
mod ranges;
pub mod utf8;
pub mod white_space;
