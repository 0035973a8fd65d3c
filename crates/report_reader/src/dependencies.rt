// The reading of a report's dependencies.
ghost use Rattle.std.specs.Prelude.{IfSome};
ghost use Rattle.report.specs.Encode.{encode_argument};
ghost use Rattle.report.specs.Valid.{ValidArgument};
ghost use Rattle.laws.specs.code.Among.{EndOf, PartOf};
ghost use Rattle.report_reader.specs.code.FromFront.{Skips};
ghost use Rattle.report_reader.specs.code.Dependencies.{ReadsDependency};

use super::fields::{
    ElementIn, Specifier, TemplatePart, Text, read_flag, read_number, read_range, read_text,
    skip_attributes, skip_list_in, skip_optional_in,
};
use report::names::{ArgumentKind, DependencyKind, StaticDependencyKind};

// A static dependency: its kind, and its specifier's text.
#[derive(Clone, Copy)]
pub struct StaticRead<'a> {
    pub kind: StaticDependencyKind,
    pub specifier: &'a [u8],
}

// Skips the argument of a dynamic dependency.
#[tactic(auto, using(laws::proofs::Among::ends))]
fn skip_argument(s: &[u8]) -> &[u8]
    ensures answer { Skips encode_argument ValidArgument s.now result.now }
    ensures rest { EndOf result.now s.now }
{
    let (kind, next) = read_number(s);
    match ArgumentKind::from(kind) {
        ArgumentKind::Expr => next,
        ArgumentKind::String => Text::skip_in(next),
        ArgumentKind::Template => skip_list_in::<TemplatePart>(next),
    }
}

// A dependency, of which only a static one is told.
pub fn read_dependency(s: &[u8]) -> (Option<StaticRead<'_>>, &[u8])
    ensures answer { ReadsDependency s.now result }
    ensures part { IfSome result.0 (λ d. PartOf d.specifier.now s.now) }
    ensures rest { EndOf result.1.now s.now }
{
    let (kind, next) = read_number(s);
    let next = skip_optional_in::<Specifier>(next);
    match DependencyKind::from(kind) {
        DependencyKind::Static(kind) => {
            let (specifier, next) = read_text(next);
            let (_, next) = read_range(next);
            let (_, next) = read_flag(next);
            (Some(StaticRead { kind, specifier }), skip_attributes(next))
        }
        DependencyKind::Dynamic(_) => {
            let (_, next) = read_range(skip_argument(next));
            (None, skip_attributes(next))
        }
    }
}
