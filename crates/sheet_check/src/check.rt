// The check of a whole sheet.
ghost use Rattle.sheet_check.specs.code.Accepts.{Judges};

use super::front::{Front, read_front};
use super::tree::{Tree, check_tree};
use sheet::comments::CommentRow;
use sheet::groups::GroupRow;
use sheet::limits::{COMMENT_LIMIT, GROUP_LIMIT, SHEET_LIMIT};
use wire::refusals::Refusal;

// What the report is made from: the front of the sheet, and its tree.
#[derive(Clone, Copy)]
pub struct Parts<'a> {
    pub front: Front<'a>,
    pub tree: Tree<'a>,
}

// Judges a sheet: its parts if it meets none of refusals 1 to 9, or the first that it meets. The tables for its comments and groups are lent, and
// `longest` to work in, which is left free.
#[tactic(auto, using(crate::proofs::Judging::judged))]
pub fn check_sheet<'a>(
    sheet: &'a [u8],
    comment_table: &'a mut [CommentRow; COMMENT_LIMIT],
    group_table: &'a mut [GroupRow; GROUP_LIMIT],
    longest: &mut [u32; COMMENT_LIMIT],
) -> Result<Parts<'a>, Refusal>
    ensures { Judges sheet.now result }
{
    if SHEET_LIMIT < sheet.len() {
        return Err(Refusal::SheetLength);
    }
    let (front, next) = read_front(sheet, comment_table, group_table, longest)?;
    let tree = check_tree(front.source, next)?;
    Ok(Parts { front, tree })
}
