// The entries of a module, judged in the report of its sheet.
ghost use Rattle.std.specs.Prelude.{◌≡◌, not, ◌&&◌, IfSome};
ghost use Rattle.sheet.specs.Shape.{is_relative};
ghost use Rattle.laws.specs.code.Among.{EndOf, PartOf};
ghost use Rattle.delivery.specs.Asks.{left_out};
ghost use Rattle.delivery.specs.Order.{among};
ghost use Rattle.delivery.specs.Right.{names_of};
ghost use Rattle.delivery.specs.code.Views.{modules_in, JudgesEntry, TellsLate};

use super::modules::{ModuleRead, is_name};
use report::names::StaticDependencyKind;
use report_reader::dependencies::read_dependency;
use report_reader::fields::read_number;
use sheet_heads::texts::is_relative;

// An entry that is late, and its specifier.
#[derive(Clone, Copy)]
pub struct Late<'a> {
    pub entry: usize,
    pub specifier: &'a [u8],
}

// Is a static kind left out?
fn is_left_out(kind: StaticDependencyKind) -> bool
    ensures { result ≡ left_out kind }
{
    matches!(
        kind,
        StaticDependencyKind::ImportType
            | StaticDependencyKind::ExportType
            | StaticDependencyKind::MaybeTsModuleAugmentation
    )
}

// Is a static entry judged, and its specifier no name of the earlier modules?
fn is_late(kind: StaticDependencyKind, specifier: &[u8], earlier: &[ModuleRead]) -> bool
    ensures { result ≡ not (left_out kind)
        && (is_relative specifier.now && not (among specifier.now (names_of (modules_in earlier.now)))) }
{
    !is_left_out(kind) && is_relative(specifier) && !is_name(earlier, specifier)
}

// The specifier of an entry that is late, if it is; and the bytes behind the entry.
fn judge_entry<'a>(report: &'a [u8], earlier: &[ModuleRead]) -> (Option<&'a [u8]>, &'a [u8])
    ensures answer { JudgesEntry (names_of (modules_in earlier.now)) report.now result }
    ensures part { IfSome result.0 (λ x. PartOf x.now report.now) }
    ensures rest { EndOf result.1.now report.now }
{
    let (dependency, next) = read_dependency(report);
    match dependency {
        Some(d) if is_late(d.kind, d.specifier, earlier) => (Some(d.specifier), next),
        _ => (None, next),
    }
}

// The first entry in a report that is late behind the earlier modules.
pub fn late_entry<'a>(report: &'a [u8], earlier: &[ModuleRead]) -> Option<Late<'a>>
    ensures answer { TellsLate (names_of (modules_in earlier.now)) report.now result }
    ensures part { IfSome result (λ l. PartOf l.specifier.now report.now) }
{
    let (_, next) = read_number(report);
    let (count, mut next) = read_number(next);
    for i in 0..count {
        let (late, behind) = judge_entry(next, earlier);
        if let Some(specifier) = late {
            return Some(Late {
                entry: i,
                specifier,
            });
        }
        next = behind;
    }
    None
}
