// The modules of a delivery, read one after the other into rows.
ghost use Rattle.std.specs.Prelude.{◌≡◌, [], ◌++◌, length};
ghost use Rattle.wire.specs.code.Views.{text_as, read_with};
ghost use Rattle.report.specs.Decode.{text, times};
ghost use Rattle.laws.specs.code.Among.{EndOf, PartOf};
ghost use Rattle.report_reader.specs.code.FromFront.{ReadsBack};
ghost use Rattle.delivery.specs.Delivery.{named_sheet, encode_module};
ghost use Rattle.delivery.specs.Order.{among, repeated};
ghost use Rattle.delivery.specs.Right.{names_of};
ghost use Rattle.delivery.specs.code.Views.{module_as, modules_in, rows_as, ValidModule};

use report_reader::fields::read_text;
use sheet::limits::TEXT_LIMIT;
use text::utf8::Encoding;
use wire::refusals::Refusal;
use wire::{Cursor, ReadResult};

// A module's name and its sheet.
#[derive(Clone, Copy)]
pub struct ModuleRead<'a> {
    pub name: &'a [u8],
    pub sheet: &'a [u8],
}

// A module, and the bytes behind it.
#[tactic(auto, using(laws::proofs::Among::ends, laws::proofs::Among::part_front), unfolding(crate::specs::Delivery::encode_module))]
pub fn read_module(s: &[u8]) -> (ModuleRead<'_>, &[u8])
    ensures answer { ReadsBack encode_module ValidModule s.now (module_as result.0) result.1.now }
    ensures name { PartOf result.0.name.now s.now }
    ensures sheet { EndOf (result.0.sheet.now ++ result.1.now) s.now }
{
    let (name, next) = read_text(s);
    let (sheet, next) = read_text(next);
    (ModuleRead { name, sheet }, next)
}

// A length, and as many bytes.
#[tactic(auto, unfolding(report::specs::Decode::text, wire::specs::Fields::bytes))]
fn read_sheet(s: &[u8]) -> ReadResult<'_, &[u8]>
    ensures { text_as result ≡ text s.now }
{
    let (n, next) = s.number()?;
    next.split_at_checked(n).ok_or(Refusal::CutOff)
}

// A name text, and a sheet.
#[tactic(auto, unfolding(crate::specs::Delivery::named_sheet))]
fn check_module(s: &[u8]) -> ReadResult<'_, ModuleRead<'_>>
    ensures { read_with module_as result ≡ named_sheet s.now }
{
    let (name, next) = s.text(Encoding::Utf8, TEXT_LIMIT)?;
    let (sheet, next) = read_sheet(next)?;
    Ok((ModuleRead { name, sheet }, next))
}

// Reads a module for each row.
#[tactic(auto, using(sheet::proofs::Filling::filled, crate::proofs::Deliveries::times_chained))]
pub fn read_modules<'a>(s: &'a [u8], rows: &mut [ModuleRead<'a>]) -> Result<&'a [u8], Refusal>
    ensures { rows_as rows.new result ≡ times named_sheet (length rows.old) s.now }
{
    let mut next = s;
    for row in rows.iter_mut() {
        let (module, behind) = check_module(next)?;
        *row = module;
        next = behind;
    }
    Ok(next)
}

// Is a text the name of one of the modules?
pub fn is_name(modules: &[ModuleRead], text: &[u8]) -> bool
    ensures { result ≡ among text.now (names_of (modules_in modules.now)) }
{
    modules.iter().any(|m| m.name == text)
}

// Does a name of the modules occur twice?
#[tactic(auto, using(crate::proofs::Rows::rows_end, crate::proofs::Rows::repeated_here), unfolding(crate::specs::Order::repeated))]
pub fn has_name_twice(modules: &[ModuleRead]) -> bool
    ensures { result ≡ repeated [] (modules_in modules.now) }
{
    for (i, module) in modules.iter().enumerate() {
        if is_name(&modules[..i], module.name) {
            return true;
        }
    }
    false
}
