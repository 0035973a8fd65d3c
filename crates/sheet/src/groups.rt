// Groups of comments, read into a table.
ghost use Rattle.std.specs.Prelude.{◌≡◌, ◌&&◌, ◌+◌, ◌<◌, leb, ltb, length};
ghost use Rattle.laws.specs.code.Told.{Told};
ghost use Rattle.wire.specs.code.Views.{read_as, Past};
ghost use Rattle.sheet.specs.Comments.{precedes, anywhere, group, groups};
ghost use Rattle.sheet.specs.code.Tables.{group_in};
ghost use Rattle.sheet.specs.code.Views.{after_as, groups_as};

use super::fields::read_position;
use super::names::Side;
use std::mem::size_of;
use wire::refusals::Refusal;
use wire::{Cursor, ReadResult};

// Where a group stands: groups are in the order of their sides, and on a side in that of their positions.
pub type GroupPlace = (Side, usize);

// A group of comments on a side of a position; the index of its first comment, and their number.
#[derive(Clone, Copy)]
pub struct Group {
    pub side: Side,
    pub position: usize,
    pub first: usize,
    pub count: usize,
}

// A group in a row of a table, which takes 16 bytes.
#[derive(Clone, Copy, Default)]
pub struct GroupRow {
    pub(crate) side: Side,
    pub(crate) position: u32,
    pub(crate) first: u32,
    pub(crate) count: u32,
}

const _: () = prove!(size_of::<GroupRow>() == 16);

impl GroupRow {
    pub fn new(g: Group) -> GroupRow
        requires { (g.position < 4294967296) × (g.first < 4294967296) × (g.count < 4294967296) }
        ensures { group_in result ≡ g }
    {
        GroupRow {
            side: g.side,
            position: g.position as u32,
            first: g.first as u32,
            count: g.count as u32,
        }
    }
}

impl From<GroupRow> for Group {
    ghost from_gives = { λ row g. g ≡ group_in row };

    fn from(row: GroupRow) -> Group {
        Group {
            side: row.side,
            position: row.position as usize,
            first: row.first as usize,
            count: row.count as usize,
        }
    }
}

// Does one side and position come before another: by side, then by position?
pub fn precedes(side: Side, position: usize, side2: Side, position2: usize) -> bool
    ensures { result ≡ precedes side position side2 position2 }
{
    (side, position) < (side2, position2)
}

// Are the comments of a group at least one, and all among `total`?
fn reaches(first: usize, count: usize, total: usize) -> bool
    requires { (first < 4294967296) × (count < 4294967296) }
    ensures { result ≡ ltb 0 count && leb (first + count) total }
{
    0 < count && first + count <= total
}

// A group of comments among `total`, behind another or the first.
#[tactic(auto, unfolding(crate::specs::Comments::group, wire::specs::Fields::numbered, wire::specs::Fields::below))]
fn read_group<'a>(
    source: &[u8],
    s: &'a [u8],
    total: usize,
    before: Option<GroupPlace>,
) -> ReadResult<'a, Group>
    ensures { Told read_as (group source.now total (after_as before) s.now) (Past (length s.now)) result }
{
    let (side, next) = s.byte()?;
    let side = Side::try_from(side)?;
    let (position, next) = read_position(source, next)?;
    // `None`, before the first group, comes before every place.
    if before >= Some((side, position)) {
        return Err(Refusal::Comments);
    }
    let (first, next) = next.number()?;
    let (count, next) = next.number()?;
    if !reaches(first, count, total) {
        return Err(Refusal::Comments);
    }
    let group = Group {
        side,
        position,
        first,
        count,
    };
    Ok((group, next))
}

// Reads as many groups, of comments among `total`, as the table has rows, which a refusal leaves free.
#[tactic(auto, using(crate::proofs::Filling::filled))]
pub fn read_groups<'a>(
    source: &[u8],
    s: &'a [u8],
    total: usize,
    table: &mut [GroupRow],
) -> Result<&'a [u8], Refusal>
    ensures { groups_as table.new result ≡ groups source.now total anywhere (length table.old) s.now }
{
    let mut next = s;
    let mut before = None;
    for row in table.iter_mut() {
        let (g, after) = read_group(source, next, total, before)?;
        *row = GroupRow::new(g);
        before = Some((g.side, g.position));
        next = after;
    }
    Ok(next)
}
