// Lines and columns of a text, from 0: a line ends at LF, a column counts characters.
ghost use Rattle.std.specs.Prelude.{◌≡◌, ℕ, ◌+◌, ◌-◌, ◌/◌, ◌≤◌, ◌<◌, length, get_or, take, drop, count_by};
ghost use Rattle.laws.specs.code.Left.{KeptFrom};
ghost use Rattle.laws.specs.code.Told.{Bounded, Leaving};
ghost use Rattle.text.specs.Ranges.{within};
ghost use Rattle.text.specs.Utf8.{continuation};
ghost use Rattle.text.specs.code.Totals.{begins_one};
ghost use Rattle.text.specs.Position.{characters, step, walk, position_of, Indexed, indexed_position};
ghost use Rattle.text.specs.code.Index.{position_in, positions_in, IndexOf};

use super::blocks::{all_in_block, count_in};
use std::mem::size_of;

#[derive(Clone, Copy, Debug, Default, PartialEq, Eq)]
pub struct Position {
    pub line: usize,
    pub column: usize,
}

// A position in a row of a table, which takes 8 bytes.
#[derive(Clone, Copy, Default)]
pub struct PositionRow {
    line: u32,
    column: u32,
}

const _: () = prove!(size_of::<PositionRow>() == 8);

impl PositionRow {
    pub fn new(p: Position) -> PositionRow
        requires { (p.line < 4294967296) × (p.column < 4294967296) }
        ensures { position_in result ≡ p }
    {
        PositionRow {
            line: p.line as u32,
            column: p.column as u32,
        }
    }
}

impl From<PositionRow> for Position {
    ghost from_gives = { λ row p. Bounded (p ≡ position_in row) ((p.line < 4294967296) × (p.column < 4294967296)) };

    fn from(row: PositionRow) -> Position {
        let line = row.line as usize;
        let column = row.column as usize;
        Position { line, column }
    }
}

// Does the byte go on with a character?
pub fn goes_on(b: u8) -> bool
    ensures { result ≡ within continuation b }
{
    matches!(b, 0x80..=0xBF)
}

// The position past a byte.
#[tactic(auto, unfolding(crate::specs::Position::step))]
fn past(p: Position, b: u8) -> Position
    requires { (p.line < 18446744073709551615) × (p.column < 18446744073709551615) }
    ensures { result ≡ step characters p b }
{
    if b == 0x0A {
        return Position {
            line: p.line + 1,
            column: 0,
        };
    }
    if goes_on(b) {
        return p;
    }
    Position {
        line: p.line,
        column: p.column + 1,
    }
}

// The position past a text, where that at its start is `start`.
#[tactic(auto, using(crate::proofs::Positions::walk_more, crate::proofs::Positions::step_bounded), unfolding(crate::specs::Position::walk))]
fn scan(text: &[u8], start: Position) -> Position
    requires { (start.line < 9223372036854775808) × (start.column < 9223372036854775808) }
    ensures { result ≡ walk characters start text.now }
{
    let mut p = start;
    for b in text {
        p = past(p, *b);
    }
    p
}

// The place past the last LF of a block, 0 for none.
fn past_last(block: &[u8; 64]) -> u8
    ensures { (result ≤ 64) × ((k : ℕ) → result ≤ k → k < 64 → get_or block.now k 0 ≡ 0x0A → ⊥)
        × ((m : ℕ) → result ≡ m + 1 → get_or block.now m 0 ≡ 0x0A) }
{
    let mut last: u8 = 0;
    for i in 0..64u8 {
        let here = if block[i as usize] == 0x0A { i + 1 } else { 0 };
        last = last.max(here);
    }
    last
}

// How many bytes of a block, from the kth on, begin a character: of ASCII, each does.
fn begun_from(block: &[u8; 64], k: u8) -> u8
    requires { k ≤ 64 }
    ensures { result ≡ count_by begins_one (take (64 - k) (drop k block.now)) }
{
    if all_in_block::<64, _>(block, |b| b < 128) {
        return 64 - k;
    }
    count_in(&block[k as usize..], |b| !goes_on(b))
}

// The position past a block, where that at its start is `p`.
fn scan_block(block: &[u8; 64], p: Position) -> Position
    requires { (p.line < 4294967296) × (p.column < 4294967296) }
    ensures { result ≡ walk characters p block.now }
{
    let lines = count_in(block, |b| b == 0x0A);
    let last = past_last(block);
    let begun = begun_from(block, last);
    let line = p.line + (lines as usize);
    if last == 0 {
        return Position {
            line,
            column: p.column + (begun as usize),
        };
    }
    Position {
        line,
        column: begun as usize,
    }
}

// Fills the index: the position at each 64th byte of the text. Behind these no row is changed.
pub fn build_index(s: &[u8], index: &mut [PositionRow])
    requires { (length s.now < 4294967296) × (length s.now / 64 < length index.old) }
    ensures { Leaving
        (Indexed characters s.now (positions_in index.new) (length s.now / 64 + 1))
        (KeptFrom (length s.now / 64 + 1) index.old index.new) }
{
    let mut p = Position::default();
    let mut rest = s;
    for row in index.iter_mut() {
        *row = PositionRow::new(p);
        let Some((block, next)) = rest.split_first_chunk::<64>() else {
            return;
        };
        p = scan_block(block, p);
        rest = next;
    }
}

// The position at `at`, from the last place in the index that is not past it: at most 63 bytes are read. Where the index has no row for it, from
// the start of the text.
#[tactic(auto, unfolding(crate::specs::Position::indexed_position, crate::specs::Position::position_of))]
pub fn indexed_position(s: &[u8], index: &[PositionRow], at: usize) -> Position
    requires { at ≤ length s.now }
    ensures { result ≡ indexed_position characters s.now (positions_in index.now) at }
{
    let k = at / 64;
    match index.get(k) {
        Some(row) => scan(&s[64 * k..at], Position::from(*row)),
        None => scan(&s[..at], Position::default()),
    }
}

// The position at `at`, where that at `from` is `start`: counted from there where that is nearer than the index.
pub fn later_position(
    s: &[u8],
    index: &[PositionRow],
    start: Position,
    from: usize,
    at: usize,
) -> Position
    requires { (from ≤ length s.now) × (at ≤ length s.now) × (start ≡ position_of characters s.now from)
        × IndexOf s.now (positions_in index.now) }
    ensures { result ≡ position_of characters s.now at }
{
    if from <= at && at - from < at % 64 {
        return scan(&s[from..at], start);
    }
    indexed_position(s, index, at)
}
