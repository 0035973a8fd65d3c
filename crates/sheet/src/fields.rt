// Positions and spans in the source.
ghost use Rattle.std.specs.Prelude.{◌≡◌, length};
ghost use Rattle.laws.specs.code.Told.{Told};
ghost use Rattle.text.specs.Position.{is_boundary};
ghost use Rattle.wire.specs.code.Views.{read_as, Past};
ghost use Rattle.sheet.specs.Fields.{position, end_from, span};
ghost use Rattle.sheet.specs.code.Views.{PastSpan};

use text::position::goes_on;
use wire::refusals::Refusal;
use wire::{Cursor, ReadResult};

// Where something stands in the source: from the start up to the end.
#[derive(Clone, Copy)]
pub struct Span {
    pub start: usize,
    pub end: usize,
}

// Is the place neither past the source nor inside a character?
#[tactic(auto, unfolding(text::specs::Position::is_boundary))]
#[inline(always)]
fn is_boundary(source: &[u8], p: usize) -> bool
    ensures { result ≡ is_boundary source.now p }
{
    source.get(p).map_or(p == source.len(), |b| !goes_on(*b))
}

#[tactic(auto, unfolding(crate::specs::Fields::position))]
#[inline(always)]
pub fn read_position<'a>(source: &[u8], s: &'a [u8]) -> ReadResult<'a, usize>
    ensures { Told read_as (position source.now s.now) (Past (length s.now)) result }
{
    let (p, next) = s.number()?;
    if is_boundary(source, p) {
        Ok((p, next))
    } else {
        Err(Refusal::Position)
    }
}

// A position that does not precede `start`.
#[tactic(auto, unfolding(crate::specs::Fields::end_from))]
#[inline(always)]
pub fn read_end<'a>(source: &[u8], s: &'a [u8], start: usize) -> ReadResult<'a, usize>
    ensures { Told read_as (end_from source.now start s.now) (Past (length s.now)) result }
{
    let (end, next) = read_position(source, s)?;
    if start <= end {
        Ok((end, next))
    } else {
        Err(Refusal::Position)
    }
}

#[tactic(auto, using(crate::proofs::CommentCodecs::span_part), unfolding(crate::specs::Fields::span))]
#[inline(always)]
pub fn read_span<'a>(source: &[u8], s: &'a [u8]) -> ReadResult<'a, Span>
    ensures { Told read_as (span source.now s.now) (PastSpan source.now (length s.now)) result }
{
    let (start, next) = read_position(source, s)?;
    let (end, next) = read_end(source, next, start)?;
    Ok((Span { start, end }, next))
}
