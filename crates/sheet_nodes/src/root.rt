// The check of the root of a tree, which also finds how far its children have entries.
ghost use Rattle.std.specs.Prelude.{◌≡◌, List, ℕ, length};
ghost use Rattle.laws.specs.Decoded.{ok, on_ok};
ghost use Rattle.laws.specs.code.Told.{Reaching};
ghost use Rattle.sheet.specs.Tree.{Node, Nodes};
ghost use Rattle.sheet.specs.Nodes.{node, nodes};
ghost use Rattle.wire.specs.code.Views.{PastWith};
ghost use Rattle.sheet_nodes.specs.code.Tallies.{node_tally, tally_all};
ghost use Rattle.sheet_nodes.specs.code.Answers.{tally_as, PastReach, PastNode, PastMore};
ghost use Rattle.sheet_nodes.specs.code.Reach.{furthest, Reaches, ReachesIn};

use super::check::check_node;
use super::tally::{NodeTally, Tally, holding};
use sheet_heads::node::{Head, read_head};
use wire::ReadResult;

// What was found in the root or in children of it, and how many children there are up to the last that has an entry; of a root none, if it is no Other.
#[derive(Clone, Copy)]
pub struct WithReach<T> {
    pub tally: T,
    pub reach: usize,
}

// How far entries reach, by those of one child more, the last of so many.
fn further(reach: usize, entries: usize, here: usize) -> usize
    ensures { result ≡ furthest reach entries here }
{
    if 0 < entries {
        return here;
    }
    reach
}

// So many children, one after the other.
#[tactic(auto, using(crate::proofs::Loops::nodes_looped, crate::proofs::Reach::reaching))]
fn check_children<'a>(
    source: &[u8],
    s: &'a [u8],
    count: usize,
    levels: usize,
) -> ReadResult<'a, WithReach<Tally>>
    ensures { Reaching
        (tally_as result
        ≡ on_ok tally_all (nodes (node source.now levels) count s.now))
        (PastReach (PastMore (length s.now)) result)
        (PastWith (λ children next. (ns : Nodes) (t : List ℕ)
        → nodes (node source.now levels) count s.now ≡ ok ns t
        → Reaches children.reach ns) result) }
{
    let mut next = s;
    let mut tally = Tally::default();
    let mut reach = 0;
    for k in 0..count {
        let (j, after) = check_node(source, next, levels)?;
        tally = tally + j;
        next = after;
        reach = further(reach, j.entries, k + 1);
    }
    Ok((WithReach { tally, reach }, next))
}

// The root, as `check_node` has it.
#[tactic(auto, using(sheet_heads::proofs::ByHead::node_by_head, crate::proofs::Arms::other_holds, crate::proofs::Reach::root_reaches))]
pub fn check_root<'a>(
    source: &[u8],
    s: &'a [u8],
    levels: usize,
) -> ReadResult<'a, WithReach<NodeTally>>
    ensures { Reaching
        (tally_as result
        ≡ on_ok node_tally (node source.now levels s.now))
        (PastReach (PastNode (length s.now)) result)
        (PastWith (λ root next. (n : Node) (t : List ℕ)
        → node source.now levels s.now ≡ ok n t
        → ReachesIn root.reach n) result) }
{
    let ((_, head), next) = read_head(source, s, levels)?;
    match head {
        Head::Other(n) => {
            let (children, next) = check_children(source, next, n, levels - 1)?;
            let tally = holding(false, false, children.tally);
            let reach = children.reach;
            Ok((WithReach { tally, reach }, next))
        }
        _ => {
            let (tally, next) = check_node(source, s, levels)?;
            Ok((WithReach { tally, reach: 0 }, next))
        }
    }
}
