// What stands in front of the program: the media byte, the source, and the rows of comments and groups.
ghost use Rattle.std.specs.Prelude.{◌≤◌, length};
ghost use Rattle.laws.specs.code.Told.{Told};
ghost use Rattle.sheet.specs.Limits.{comment_limit, group_limit};
ghost use Rattle.sheet_check.specs.code.Pieces.{source_fields, comment_fields, group_fields, front};
ghost use Rattle.sheet_check.specs.code.Views.{source_as, comment_rows_as, group_rows_as, front_as, WithinSource, WithinLimit, WithinFront};

use sheet::comments::{CommentRow, read_comments};
use sheet::covering::is_covered;
use sheet::groups::{GroupRow, read_groups};
use sheet::limits::{COMMENT_LIMIT, GROUP_LIMIT, SOURCE_LIMIT};
use sheet::names::MediaType;
use text::utf8::Encoding;
use wire::refusals::Refusal;
use wire::{Cursor, ReadResult};

// The media byte, the source and where it starts in the sheet, and the rows of its comments and groups.
#[derive(Clone, Copy)]
pub struct Front<'a> {
    pub media: MediaType,
    pub source: &'a [u8],
    pub source_start: usize,
    pub comments: &'a [CommentRow],
    pub groups: &'a [GroupRow],
}

// The media byte and the source.
#[tactic(auto, unfolding(crate::specs::code::Pieces::source_fields, wire::specs::Fields::numbered, wire::specs::Fields::below))]
fn read_source(sheet: &[u8]) -> ReadResult<'_, (MediaType, &[u8])>
    ensures { Told source_as
        (source_fields sheet.now)
        (WithinSource sheet.now) result }
{
    let (media, next) = sheet.byte()?;
    let media = MediaType::try_from(media)?;
    let (source, next) = next.text(Encoding::Utf8, SOURCE_LIMIT)?;
    Ok(((media, source), next))
}

// Reads the comments into the first rows of a table.
#[tactic(auto, using(sheet_heads::proofs::Counts::count_within, crate::proofs::Tables::first_rows), unfolding(crate::specs::code::Pieces::comment_fields))]
fn read_comment_table<'a>(
    source: &[u8],
    s: &'a [u8],
    table: &'a mut [CommentRow],
) -> ReadResult<'a, &'a [CommentRow]>
    requires { comment_limit ≤ length table.old }
    ensures { Told comment_rows_as
        (comment_fields source.now s.now)
        (WithinLimit comment_limit) result }
{
    let (n, next) = s.count(COMMENT_LIMIT)?;
    let comments = &mut table[..n];
    let next = read_comments(source, next, comments)?;
    Ok((comments, next))
}

// Reads the groups of n comments into the first rows of a table. `longest` is lent to work in.
#[tactic(auto, using(sheet_heads::proofs::Counts::count_within, crate::proofs::Tables::first_rows), unfolding(crate::specs::code::Pieces::group_fields))]
fn read_group_table<'a>(
    source: &[u8],
    s: &'a [u8],
    n: usize,
    table: &'a mut [GroupRow],
    longest: &mut [u32],
) -> ReadResult<'a, &'a [GroupRow]>
    requires groups_in_bounds { group_limit ≤ length table.old }
    requires longest_in_bounds { n ≤ length longest.old }
    ensures { Told group_rows_as
        (group_fields source.now n s.now)
        (WithinLimit group_limit) result }
{
    let (m, next) = s.count(GROUP_LIMIT)?;
    let groups = &mut table[..m];
    let next = read_groups(source, next, n, groups)?;
    if is_covered(groups, &mut longest[..n]) {
        Ok((groups, next))
    } else {
        Err(Refusal::Comments)
    }
}

// Reads all that stands in front of the program, comments and groups into the first rows of two tables. `longest`
// is lent to work in.
#[tactic(auto, unfolding(crate::specs::code::Pieces::front))]
pub fn read_front<'a>(
    sheet: &'a [u8],
    comment_table: &'a mut [CommentRow],
    group_table: &'a mut [GroupRow],
    longest: &mut [u32],
) -> ReadResult<'a, Front<'a>>
    requires comments_in_bounds { comment_limit ≤ length comment_table.old }
    requires groups_in_bounds { group_limit ≤ length group_table.old }
    requires longest_in_bounds { comment_limit ≤ length longest.old }
    ensures { Told front_as
        (front sheet.now)
        (WithinFront sheet.now) result }
{
    let ((media, source), next) = read_source(sheet)?;
    let source_start = sheet.len() - next.len() - source.len();
    let (comments, next) = read_comment_table(source, next, comment_table)?;
    let (groups, next) = read_group_table(source, next, comments.len(), group_table, longest)?;
    let front = Front {
        media,
        source,
        source_start,
        comments,
        groups,
    };
    Ok((front, next))
}
