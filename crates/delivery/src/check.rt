// Refusal 11: the bytes of a delivery, checked from the front.
ghost use Rattle.std.specs.Prelude.{◌≡◌, length};
ghost use Rattle.delivery.specs.Delivery.{last_modules, decode_delivery};
ghost use Rattle.delivery.specs.code.Views.{unnumbered, checked_as};

use super::modules::{ModuleRead, read_modules};
use wire::Cursor;

// Bytes of a delivery.
pub const DELIVERY_LIMIT: usize = 65536;

// Modules of a delivery.
pub const MODULE_LIMIT: usize = 64;

// A module for each row, and nothing behind them.
#[tactic(auto, unfolding(crate::specs::Delivery::last_modules))]
fn check_counted<'a, 'r>(
    s: &'a [u8],
    rows: &'r mut [ModuleRead<'a>],
) -> Option<&'r [ModuleRead<'a>]>
    ensures { checked_as result ≡ unnumbered (last_modules (length rows.old) s.now) }
{
    let behind = read_modules(s, rows).ok()?;
    if !behind.is_empty() {
        return None;
    }
    Some(rows)
}

// The modules of a delivery, in the first rows; none where it is refused, whatever the reason.
#[tactic(auto, unfolding(crate::specs::Delivery::decode_delivery, crate::specs::Delivery::counted_modules))]
pub fn check_delivery<'a, 'r>(
    delivery: &'a [u8],
    rows: &'r mut [ModuleRead<'a>; MODULE_LIMIT],
) -> Option<&'r [ModuleRead<'a>]>
    ensures { checked_as result ≡ unnumbered (decode_delivery delivery.now) }
{
    if DELIVERY_LIMIT < delivery.len() {
        return None;
    }
    let (count, next) = delivery.number().ok()?;
    if count < 1 {
        return None;
    }
    if MODULE_LIMIT < count {
        return None;
    }
    check_counted(next, &mut rows[..count])
}
