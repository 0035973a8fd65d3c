// The program and the root of a sheet, with refusals 8 and 9 behind them.
ghost use Rattle.sheet_check.specs.code.Views.{TreeFound};

use sheet::limits::DEPTH_LIMIT;
use sheet::program::{Program, read_program};
use sheet_nodes::root::check_root;
use wire::refusals::Refusal;

// The program, the bytes of the root, how many dependencies it gives, and how many of its children there are up to the last that gives one, if it is
// an Other.
#[derive(Clone, Copy)]
pub struct Tree<'a> {
    pub program: Program,
    pub root: &'a [u8],
    pub entries: usize,
    pub reach: usize,
}

// Reads the program and checks the root, behind which the sheet ends; then refusal 8, then refusal 9.
#[tactic(auto, using(crate::proofs::Trees::trees), unfolding(crate::specs::code::Pieces::tree))]
pub fn check_tree<'a>(source: &[u8], s: &'a [u8]) -> Result<Tree<'a>, Refusal>
    ensures { TreeFound source.now s.now result }
{
    let (program, root) = read_program(source, s)?;
    let (found, after) = check_root(source, root, DEPTH_LIMIT)?;
    if !after.is_empty() {
        return Err(Refusal::Trailing);
    }
    if found.tally.uncooked {
        return Err(Refusal::Uncooked);
    }
    Ok(Tree {
        program,
        root,
        entries: found.tally.entries,
        reach: found.reach,
    })
}
