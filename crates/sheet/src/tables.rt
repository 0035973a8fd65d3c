// The tables that a sheet's comments, groups and positions are read into.
ghost use Rattle.std.specs.Prelude.{◌≡◌, length, replicate};

use super::comments::CommentRow;
use super::groups::GroupRow;
use super::limits::{COMMENT_LIMIT, GROUP_LIMIT, INDEX_ROWS};
use text::position::PositionRow;

// Room for the comments and the groups of any sheet, and for the index of any source.
#[derive(Drop)]
pub struct Tables {
    pub comments: [CommentRow; COMMENT_LIMIT],
    pub groups: [GroupRow; GROUP_LIMIT],
    pub index: [PositionRow; INDEX_ROWS],
}

impl Tables {
    // A literal of these arrays in the function that lends them takes twice the stack: each is made beside the struct and copied into it.
    pub fn new() -> Tables
        ensures { result.index ≡ replicate (length result.index) (record { line = 0; column = 0 }) }
    {
        Tables {
            comments: [CommentRow::default(); COMMENT_LIMIT],
            groups: [GroupRow::default(); GROUP_LIMIT],
            index: [PositionRow::default(); INDEX_ROWS],
        }
    }
}
