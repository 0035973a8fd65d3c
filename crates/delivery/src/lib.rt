// The load order of a delivery: is each module behind those that it needs?
#![tactic(auto)]

pub mod check;
pub mod entries;
pub mod judge;
pub mod modules;

ghost use Rattle.std.specs.Prelude.{◌≡◌, length};
ghost use Rattle.delivery.specs.Promise.{LoadOrder, order_as, load_order_as, OrderPromised, packed};
ghost use Rattle.delivery.specs.code.Views.{judgement_as};

use crate::judge::{Judgement, RefusedModule, judge};

// The first entry that is late, and its module, both counted from 0.
#[derive(Clone, Copy, Debug, PartialEq, Eq)]
pub struct NotInOrder {
    pub module: usize,
    pub entry: usize,
}

// The answer to a delivery: the first entry that is late, or none where all is in order; or a refusal.
pub type LoadOrder = Result<Option<NotInOrder>, RefusedModule>;

// A judgement without the specifier.
fn order_of(judgement: Judgement) -> LoadOrder
    ensures { load_order_as result ≡ order_as (judgement_as judgement.entry) }
{
    Ok(judgement?.map(|first| NotInOrder {
        module: first.module,
        entry: first.late.entry,
    }))
}

// Is a delivery in order? Reports are made in the work buffer, of which every byte is zero then.
pub fn order(delivery: &[u8], work: &mut [u8]) -> LoadOrder
    ensures { OrderPromised delivery.now (length work.old) result work.new }
{
    let order = order_of(judge(delivery, work));
    work.fill(0);
    order
}

// The answer in one number.
fn pack(order: LoadOrder) -> u64
    ensures { result ≡ packed order }
{
    match order {
        Ok(None) => 0,
        Ok(Some(late)) => {
            255 + 256 * ((late.module as u64) % 256)
                + 65536 * ((late.entry as u64) % 281474976710656)
        }
        Err(r) => u64::from(r.refusal.number()) + 256 * ((r.module as u64) % 256),
    }
}

// The order function for C.
pub fn delivery_order(delivery: &[u8], work: &mut [u8]) -> u64
    ensures { (o : LoadOrder) × OrderPromised delivery.now (length work.old) o work.new × (result ≡ packed o) }
{
    pack(order(delivery, work))
}
