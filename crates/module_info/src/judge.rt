// What bytes are: none, a sheet that is refused, or one that is accepted. Each question that is asked of bytes begins here.
ghost use Rattle.std.specs.Prelude.{◌≡◌, []};
ghost use Rattle.text.specs.code.Index.{positions_in, IndexOf};
ghost use Rattle.sheet_nodes.specs.code.Reach.{ReachesIn};
ghost use Rattle.pragmas.specs.Pragmas.{head_comments, end_comments};
ghost use Rattle.module_info.specs.code.AcceptedSheet.{IsAccepted, one_sheet};
ghost use Rattle.module_info.specs.code.Reached.{one_reach_in};
ghost use Rattle.module_info.specs.code.Pieces.{commented, Sound, PartsOf, HasParts, AcceptsIn};
ghost use Rattle.module_info.specs.code.Judged.{ChecksAs, JudgedAs};

use sheet::commented::Comments;
use sheet::limits::COMMENT_LIMIT;
use sheet::tables::Tables;
use sheet_check::check::{Parts, check_sheet};
use text::position::{PositionRow, build_index};
use wire::refusals::Refusal;

// The bytes of an accepted sheet, what the check found in them, and the index of its source's positions.
#[derive(Clone, Copy)]
pub struct Accepted<'a> {
    sheet: &'a [u8],
    parts: Parts<'a>,
    index: &'a [PositionRow],
    ghost accepted: { IsAccepted sheet.now } by { one_sheet sheet.now },
    ghost parted: { HasParts accepted.0 sheet.now parts },
    ghost reaches: { ReachesIn parts.tree.reach accepted.0.root } by { one_reach_in parts.tree.reach accepted.0.root },
    ghost indexed: { IndexOf parts.front.source.now (positions_in index.now) },
}

impl<'a> Accepted<'a> {
    ghost use Rattle.module_info.specs.code.Views.{accepted_as};

    pub fn new(sheet: &'a [u8], parts: Parts<'a>, index: &'a [PositionRow]) -> Accepted<'a>
        requires { AcceptsIn sheet.now index.now parts }
        ensures { (accepted_as result).bytes ≡ sheet.now }
    {
        Accepted {
            sheet,
            parts,
            index,
        }
    }

    #[tactic(auto, using(crate::proofs::Accepted::parts_of))]
    pub fn parts(&self) -> Parts<'a>
        ensures { PartsOf (accepted_as self.now).sheet (accepted_as self.now).bytes result }
    {
        self.parts
    }

    #[tactic(auto, using(crate::proofs::Accepted::sound_source, crate::proofs::Accepted::commented_of))]
    pub fn comments(&self) -> Comments<'a>
        ensures comments { result ≡ commented (accepted_as self.now).sheet }
        ensures sound { Sound result.source }
    {
        let front = self.parts.front;
        Comments::new(front.source, front.comments, front.groups, self.index)
    }

    // Those of the head group.
    #[tactic(auto, unfolding(pragmas::specs::Pragmas::head_comments))]
    pub fn head_comments(&self) -> Comments<'a>
        ensures { result ≡ record { source = (accepted_as self.now).sheet.source; comments = head_comments (accepted_as self.now).sheet; groups = [] } }
    {
        let comments = self.comments();
        let program = self.parts().tree.program;
        comments.of(comments.head_group(program))
    }

    // Those of the trailing group at the program's end.
    #[tactic(auto, unfolding(pragmas::specs::Pragmas::end_comments))]
    pub fn end_comments(&self) -> Comments<'a>
        ensures { result ≡ record { source = (accepted_as self.now).sheet.source; comments = end_comments (accepted_as self.now).sheet; groups = [] } }
    {
        let comments = self.comments();
        let program = self.parts().tree.program;
        comments.of(comments.end_group(program))
    }
}

// Checks a sheet: its comments, its groups and the index of its source's positions are in the tables then, or the
// answer is the first refusal. The table that only the check works in is here, so that its room on the stack is
// free again for what follows.
#[tactic(auto, using(crate::proofs::Accepted::source_sound))]
fn check<'a>(sheet: &'a [u8], tables: &'a mut Tables) -> Result<Accepted<'a>, Refusal>
    ensures { ChecksAs (λ a. a.sheet.now) sheet.now result }
{
    let mut longest = [0u32; COMMENT_LIMIT];
    let Tables {
        comments,
        groups,
        index,
    } = tables;
    let parts = check_sheet(sheet, comments, groups, &mut longest)?;
    build_index(parts.front.source, index);
    Ok(Accepted::new(sheet, parts, index))
}

// An accepted sheet, or the first refusal; of no bytes neither. The tables are lent to it.
pub fn judge<'a>(sheet: &'a [u8], tables: &'a mut Tables) -> Result<Option<Accepted<'a>>, Refusal>
    ensures { JudgedAs (λ a. a.sheet.now) sheet.now result }
{
    if sheet.is_empty() {
        return Ok(None);
    }
    Ok(Some(check(sheet, tables)?))
}
