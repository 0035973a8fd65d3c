// JSDoc imports in the body of a comment: `{import("./a.ts").A}` and `@import A from "./a.ts"`.
#![tactic(auto)]

pub mod answers;
mod block;
mod clause;
pub mod dynamic_import;
pub mod import_decl;
pub mod imports;
mod marks;
pub mod origins;
mod pieces;
pub mod quote;
