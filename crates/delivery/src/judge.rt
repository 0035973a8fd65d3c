// The judgement of a delivery: refusals 11 and 12, then its sheets, then its order.
ghost use Rattle.std.specs.Prelude.{◌≡◌, ◌≤◌, [], length, IfSome};
ghost use Rattle.laws.specs.Codec.{All};
ghost use Rattle.laws.specs.code.Left.{Free};
ghost use Rattle.laws.specs.code.Told.{Leaving, Lent};
ghost use Rattle.delivery.specs.Order.{Answer, entries_of, number_of, sheets_in_turn, modules_in_turn, order_of};
ghost use Rattle.delivery.specs.Right.{Reported, names_of};
ghost use Rattle.delivery.specs.code.Views.{modules_in, LateReport, late_module_as, sheets_as, judgement_as};

use super::check::{MODULE_LIMIT, check_delivery};
use super::entries::{Late, late_entry};
use super::modules::{ModuleRead, has_name_twice};
use module_info::module_info;
use wire::refusals::Refusal;

// A refusal, and the module that it is about: the first one, where it is about the delivery.
#[derive(Clone, Copy, Debug, PartialEq, Eq)]
pub struct RefusedModule {
    pub refusal: Refusal,
    pub module: usize,
}

// The first entry that is late, and its module. Its specifier stands in the work buffer.
#[derive(Clone, Copy)]
pub struct LateModule<'a> {
    pub module: usize,
    pub late: Late<'a>,
}

// The answer: the first entry that is late, or none where all is in order; or a refusal.
pub type Judgement<'a> = Result<Option<LateModule<'a>>, RefusedModule>;

// A refusal of the delivery.
fn of_delivery(refusal: Refusal) -> RefusedModule
    ensures { result ≡ record { refusal = refusal; «module» = 0 } }
{
    RefusedModule { refusal, module: 0 }
}

// The first refused sheet of the modules, if not each gets its report.
#[tactic(auto, using(crate::proofs::Rows::rows_end), unfolding(crate::specs::Order::sheets_in_turn))]
fn judge_sheets(modules: &[ModuleRead], work: &mut [u8]) -> Result<(), RefusedModule>
    ensures { Leaving
        ((behind : Answer)
        → sheets_as result behind ≡ sheets_in_turn (length work.old) 0 (modules_in modules.now) behind)
        (Free work.old work.new) }
{
    for (i, module) in modules.iter().enumerate() {
        if let Err(refusal) = module_info(module.sheet, work) {
            return Err(RefusedModule { refusal, module: i });
        }
    }
    Ok(())
}

// How long the report of a sheet is, which is made again, if an entry in it is late. A sheet that is refused has none.
#[tactic(auto, using(crate::proofs::Reported::refused_number))]
fn judge_module(sheet: &[u8], earlier: &[ModuleRead], work: &mut [u8]) -> Option<usize>
    ensures { Lent
        (number_of (length work.old) sheet.now ≡ 0
        → LateReport (names_of (modules_in earlier.now)) (entries_of sheet.now) work.new result)
        (IfSome result (λ n. n ≤ length work.new))
        (Free work.old work.new) }
{
    let n = module_info(sheet, work).ok()?;
    late_entry(&work[..n], earlier)?;
    Some(n)
}

// The first entry that is late in the modules, whose sheets all get their reports.
// It is read once more: the answer borrows from the buffer.
#[tactic(auto, using(crate::proofs::Rows::rows_end), unfolding(crate::specs::Order::modules_in_turn))]
fn judge_order<'a>(modules: &[ModuleRead], work: &'a mut [u8]) -> Option<LateModule<'a>>
    ensures { All (Reported (length work.old)) (modules_in modules.now)
        → late_module_as result ≡ modules_in_turn [] 0 (modules_in modules.now) }
{
    for (i, module) in modules.iter().enumerate() {
        let earlier = &modules[..i];
        if let Some(n) = judge_module(module.sheet, earlier, work) {
            let late = late_entry(&work[..n], earlier)?;
            return Some(LateModule { module: i, late });
        }
    }
    None
}

// The answer to a delivery. The work buffer has what was written last.
#[tactic(auto, using(crate::proofs::Orders::none_read, crate::proofs::Orders::names_twice))]
pub fn judge<'a>(delivery: &[u8], work: &'a mut [u8]) -> Judgement<'a>
    ensures { judgement_as result ≡ order_of (length work.old) delivery.now }
{
    let none = ModuleRead {
        name: &[],
        sheet: &[],
    };
    let mut rows = [none; MODULE_LIMIT];
    let Some(modules) = check_delivery(delivery, &mut rows) else {
        return Err(of_delivery(Refusal::Delivery));
    };
    if has_name_twice(modules) {
        return Err(of_delivery(Refusal::NameTwice));
    }
    judge_sheets(modules, work)?;
    Ok(judge_order(modules, work))
}
