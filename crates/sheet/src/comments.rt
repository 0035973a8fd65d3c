// Comments, read into a table.
ghost use Rattle.std.specs.Prelude.{◌≡◌, ◌<◌, length};
ghost use Rattle.laws.specs.code.Told.{Told};
ghost use Rattle.wire.specs.code.Views.{read_as, Past};
ghost use Rattle.sheet.specs.Comments.{opening, closing, enclosed, marked, comment, comments};
ghost use Rattle.sheet.specs.code.Tables.{comment_in};
ghost use Rattle.sheet.specs.code.Views.{comments_as};

use super::fields::{Span, read_end, read_position};
use super::names::CommentKind;
use std::mem::size_of;
use wire::refusals::Refusal;
use wire::{Cursor, ReadResult};

// A comment: its kind, and its span with the marks.
#[derive(Clone, Copy)]
pub struct Comment {
    pub kind: CommentKind,
    pub span: Span,
}

// A comment in a row of a table, which takes 12 bytes.
#[derive(Clone, Copy, Default)]
pub struct CommentRow {
    kind: CommentKind,
    start: u32,
    end: u32,
}

const _: () = prove!(size_of::<CommentRow>() == 12);

impl CommentRow {
    pub fn new(c: Comment) -> CommentRow
        requires { (c.span.start < 4294967296) × (c.span.end < 4294967296) }
        ensures { comment_in result ≡ c }
    {
        CommentRow {
            kind: c.kind,
            start: c.span.start as u32,
            end: c.span.end as u32,
        }
    }
}

impl From<CommentRow> for Comment {
    ghost from_gives = { λ row c. c ≡ comment_in row };

    fn from(row: CommentRow) -> Comment {
        let start = row.start as usize;
        let end = row.end as usize;
        Comment {
            kind: row.kind,
            span: Span { start, end },
        }
    }
}

// Does the text begin with one mark and end with the other, and is it no shorter than the two?
#[tactic(auto, using(text::proofs::Words::begins_is, crate::proofs::Marks::ends_is), unfolding(crate::specs::Comments::enclosed))]
#[inline(always)]
fn is_enclosed(text: &[u8], front: &[u8], back: &[u8]) -> bool
    ensures { result ≡ enclosed front.now back.now text.now }
{
    front.len() + back.len() <= text.len() && text.starts_with(front) && text.ends_with(back)
}

// The marks that open and close a comment of a kind.
pub(crate) fn marks(kind: CommentKind) -> (&'static [u8], &'static [u8])
    ensures { (result.0.now ≡ opening kind) × (result.1.now ≡ closing kind) }
{
    match kind {
        CommentKind::Line => (b"//", b""),
        CommentKind::Block => (b"/*", b"*/"),
        CommentKind::HtmlOpen => (b"<!--", b""),
        CommentKind::HtmlClose => (b"-->", b""),
    }
}

// Has the text the marks of its kind? They stand here as constants, which are compared at once; those of `marks` would each take a call.
#[tactic(auto, unfolding(crate::specs::Comments::marked))]
fn is_marked(text: &[u8], kind: CommentKind) -> bool
    ensures { result ≡ marked kind text.now }
{
    match kind {
        CommentKind::Line => is_enclosed(text, b"//", b""),
        CommentKind::Block => is_enclosed(text, b"/*", b"*/"),
        CommentKind::HtmlOpen => is_enclosed(text, b"<!--", b""),
        CommentKind::HtmlClose => is_enclosed(text, b"-->", b""),
    }
}

// A comment that starts no earlier than `last`, the end of the one before.
#[tactic(auto, unfolding(crate::specs::Comments::comment, wire::specs::Fields::numbered, wire::specs::Fields::below))]
fn read_comment<'a>(source: &[u8], s: &'a [u8], last: usize) -> ReadResult<'a, Comment>
    ensures { Told read_as (comment source.now last s.now) (Past (length s.now)) result }
{
    let (kind, next) = s.byte()?;
    let kind = CommentKind::try_from(kind)?;
    let (start, next) = read_position(source, next)?;
    if start < last {
        return Err(Refusal::Comments);
    }
    let (end, next) = read_end(source, next, start)?;
    if is_marked(&source[start..end], kind) {
        let span = Span { start, end };
        Ok((Comment { kind, span }, next))
    } else {
        Err(Refusal::Comments)
    }
}

// Reads as many comments as the table has rows, which a refusal leaves free.
#[tactic(auto, using(crate::proofs::Filling::filled))]
pub fn read_comments<'a>(
    source: &[u8],
    s: &'a [u8],
    table: &mut [CommentRow],
) -> Result<&'a [u8], Refusal>
    ensures { comments_as table.new result ≡ comments source.now 0 (length table.old) s.now }
{
    let mut next = s;
    let mut last = 0;
    for row in table.iter_mut() {
        let (found, after) = read_comment(source, next, last)?;
        *row = CommentRow::new(found);
        last = found.span.end;
        next = after;
    }
    Ok(next)
}
