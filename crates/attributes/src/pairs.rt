// Pairs of keys and values in a table, with keys that ascend.
ghost use Rattle.std.specs.Prelude.{◌≡◌, [], ◌-◌, ◌<◌, ◌≤◌, get_or, length, take, map};
ghost use Rattle.std.specs.List as list;
ghost use Rattle.laws.specs.code.Told.{Told, Bounded};
ghost use Rattle.sheet.specs.Limits.{property_limit};
ghost use Rattle.report.specs.ModuleInfo.{KeyValue};
ghost use Rattle.attributes.specs.Attributes.{insert};
ghost use Rattle.attributes.specs.code.Rows.{pair_as};
ghost use Rattle.attributes.specs.code.Views.{slot_as, SlotWithin};

use sheet::limits::PROPERTY_LIMIT;
use std::marker::Model;
use std::mem;

// A key, and, if it is known, its value.
#[derive(Clone, Copy, Default)]
pub struct Pair<'a> {
    pub key: &'a [u8],
    pub value: Option<&'a [u8]>,
}

// A row for each property, the first n of them with the pairs.
#[derive(Drop)]
pub struct Pairs<'a> {
    rows: [Pair<'a>; PROPERTY_LIMIT],
    n: usize,
}

impl<'a> Model for Pairs<'a> {
    ghost use Rattle.std.specs.Prelude.{◌≡◌, List, ◌≤◌, length};
    ghost use Rattle.sheet.specs.Limits.{property_limit};
    ghost use Rattle.report.specs.ModuleInfo.{KeyValue};

    ghost Value = { List KeyValue };

    ghost use Rattle.attributes.specs.code.Rows.{pairs_in};

    ghost view = { λ p. pairs_in p.rows p.n };

    ghost invariant = { λ p. (length p.rows ≡ property_limit) × (p.n ≤ property_limit) };
}

// Puts a pair before the ith, and moves the others up over the last, one after the other: to copy them at once takes `memmove`.
#[tactic(auto, using(crate::proofs::PairRows::row_carried, crate::proofs::PairRows::row_opened))]
fn insert_before<'a>(rows: &mut [Pair<'a>], i: usize, p: Pair<'a>)
    requires { i < length rows.old }
    ensures { rows.new ≡ list.insert (take (length rows.old - 1) rows.old) i p.entry }
{
    let mut carried = p;
    for row in rows[i..].iter_mut() {
        carried = mem::replace(row, carried);
    }
}

impl<'a> Pairs<'a> {
    pub fn new() -> Pairs<'a>
        ensures { result ≡ [] }
    {
        Pairs {
            rows: [Pair::default(); PROPERTY_LIMIT],
            n: 0,
        }
    }

    pub(crate) fn clear(&mut self)
        ensures { self.new ≡ [] }
    {
        self.n = 0;
    }

    // The pairs in order.
    pub(crate) fn as_slice(&self) -> &[Pair<'a>]
        ensures { Bounded (map pair_as result.now ≡ self.now) (length result.now ≤ property_limit) }
    {
        &self.rows[..self.n]
    }

    #[tactic(auto, using(crate::proofs::PairRows::pairs_length))]
    pub fn len(&self) -> usize
        ensures counted { result ≡ length self.now }
        ensures within { result ≤ property_limit }
    {
        self.as_slice().len()
    }

    // The ith pair.
    #[tactic(auto, using(crate::proofs::PairRows::row_is))]
    pub fn at(&self, i: usize) -> Pair<'a>
        requires { i < length self.now }
        ensures { (d : KeyValue) → get_or self.now i d ≡ pair_as result }
    {
        self.as_slice()[i]
    }

    // The row of a pair with the same key, or else the row that the pair belongs before.
    fn find(&self, p: Pair<'a>) -> Result<usize, usize>
        ensures { Told (slot_as (pair_as p.entry) self.now)
            (insert (pair_as p.entry) self.now)
            (SlotWithin (length self.now)) result }
    {
        let rows = self.as_slice();
        match rows.iter().position(|row| p.key.cmp(row.key).is_le()) {
            Some(i) if p.key == rows[i].key => Ok(i),
            Some(i) => Err(i),
            None => Err(rows.len()),
        }
    }

    // Puts a pair in its place, instead of one with the same key.
    #[tactic(auto, using(crate::proofs::PairRows::set_pairs, crate::proofs::PairRows::insert_pairs, crate::proofs::PairRows::opened_length, crate::proofs::PairRows::rows_filled))]
    pub fn insert(&mut self, p: Pair<'a>)
        requires { length self.old < property_limit }
        ensures { self.new ≡ insert (pair_as p.entry) self.old }
    {
        match self.find(p) {
            Ok(same) => self.rows[same] = p,
            Err(i) => {
                let n = self.n + 1;
                insert_before(&mut self.rows[..n], i, p);
                self.n = n;
            }
        }
    }
}
