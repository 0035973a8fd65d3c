// The argument of a dynamic import, as far as its text is known.
#![tactic(auto)]

pub mod argument;
pub mod bin;
pub mod expression;
pub mod part;
pub mod template;
pub mod template_pieces;
