// Columns in UTF-16 code units, recounted from the source.
ghost use Rattle.std.specs.Prelude.{◌≡◌, false, ℕ, ◌≤◌, ◌<◌, length, get_or};
ghost use Rattle.laws.specs.code.Told.{Bounded};
ghost use Rattle.report.specs.Valid.{ValidPosition};
ghost use Rattle.citation.specs.Columns.{begins_four, from_line, fours_in, recounted};
ghost use Rattle.citation.specs.code.Printable.{Printable};

use text::bytes::next_of;
use text::position::{Position, goes_on};

// What is left of a source from the start of a line on.
#[tactic(auto, using(std::proofs::lemmas::List::take_rest, crate::proofs::Fours::next_line, crate::proofs::Fours::no_line, crate::proofs::Fours::this_line))]
fn from_line(source: &[u8], line: usize) -> &[u8]
    ensures { result.now ≡ from_line line source.now }
{
    let mut left = source;
    for _ in 0..line {
        let Some(end) = next_of(left, 0, b'\n') else {
            return &[];
        };
        left = &left[end + 1..];
    }
    left
}

// Does the byte begin a character of four bytes?
fn begins_four(b: u8) -> bool
    ensures { result ≡ begins_four b }
{
    0xF0 <= b
}

// How many of the first n characters of a text have four bytes.
fn fours_in(text: &[u8], n: usize) -> usize
    ensures { result ≡ fours_in n text.now }
{
    text.iter()
        .filter(|b| !goes_on(**b))
        .take(n)
        .filter(|b| begins_four(**b))
        .count()
}

// A position in characters, recounted in UTF-16 code units.
#[tactic(auto, using(crate::proofs::Fours::fours_most), unfolding(crate::specs::Columns::recounted))]
pub fn recounted(source: &[u8], p: Position) -> Position
    requires { ValidPosition p }
    ensures { Bounded (result ≡ recounted source.now p) (Printable result) }
{
    Position {
        line: p.line,
        column: p.column + fours_in(from_line(source, p.line), p.column),
    }
}

// The place behind the last byte that begins a character of four bytes: what follows recounts no position.
pub fn last_four(source: &[u8]) -> usize
    ensures { Bounded
        ((k : ℕ) → result ≤ k → k < length source.now → begins_four (get_or source.now k 0) ≡ false)
        (result ≤ length source.now) }
{
    source
        .iter()
        .rposition(|b| begins_four(*b))
        .map_or(0, |k| k + 1)
}
