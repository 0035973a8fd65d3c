// The head of a node: its tag, its span and its fields up to its first child.
ghost use Rattle.std.specs.Prelude.{length};
ghost use Rattle.laws.specs.Decoded.{on_ok};
ghost use Rattle.laws.specs.code.Told.{Told};
ghost use Rattle.text.specs.declared.utf8.Encoding.TheVariants.{Utf8};
ghost use Rattle.wire.specs.Fields.{flag};
ghost use Rattle.wire.specs.Number.{number};
ghost use Rattle.wire.specs.Text.{count, text};
ghost use Rattle.sheet.specs.Limits.{text_limit, property_limit};
ghost use Rattle.sheet.specs.Nodes.{text_behind};
ghost use Rattle.sheet.specs.code.Views.{SpanIn};
ghost use Rattle.sheet_heads.specs.code.Head.{other_head, string_head, name_head, template_head, binary_head, object_head, call_start, specifier_start};
ghost use Rattle.sheet_heads.specs.code.Head.{import_start, named_export_start, export_all_start, import_type_start, import_require_start};
ghost use Rattle.sheet_heads.specs.code.Head.{import_equals_start, module_start, start, head};
ghost use Rattle.sheet_heads.specs.code.Views.{tag_number, specifier_as, fields_as, head_as, PastSpecifier, PastFields, PastPlain, PastHead};

use super::quoted::{Quoted, Tag, read_quoted, read_string_text, read_tag};
use sheet::fields::{Span, read_span};
use sheet::limits::{PROPERTY_LIMIT, TEXT_LIMIT};
use sheet::names::ImportPhase;
use text::utf8::Encoding;
use wire::{Cursor, ReadResult};

// What an import declaration says.
#[derive(Clone, Copy)]
pub struct ImportHead<'a> {
    pub type_only: bool,
    pub phase: ImportPhase,
    pub side_effect: bool,
    pub specifier: Quoted<'a>,
    pub has_object: bool,
}

// What an export with a String says.
#[derive(Clone, Copy)]
pub struct ExportHead<'a> {
    pub type_only: bool,
    pub specifier: Quoted<'a>,
    pub has_object: bool,
}

// What an `import x = require(..)` says.
#[derive(Clone, Copy)]
pub struct RequireHead<'a> {
    pub type_only: bool,
    pub export: bool,
    pub specifier: Quoted<'a>,
}

// What stands before a node's first child.
#[derive(Clone, Copy)]
pub enum Head<'a> {
    // The number of children.
    Other(usize),
    String(&'a [u8]),
    Name(&'a [u8]),
    // The number of holes; the pieces follow, one more.
    Template(usize),
    // Is it a plus?
    Binary(bool),
    // The number of properties.
    Object(usize),
    ImportCall(ImportPhase),
    Call,
    Import(ImportHead<'a>),
    // Without a String: type-only.
    NamedExport(bool),
    // With a String.
    ExportFrom(ExportHead<'a>),
    ExportAll(ExportHead<'a>),
    // The number of children.
    ImportType(Quoted<'a>, usize),
    // Not external.
    ImportEquals,
    // External.
    ImportRequire(RequireHead<'a>),
    // The String, if there is one, and the number of children.
    Module(Option<Quoted<'a>>, usize),
}

#[inline(always)]
fn read_other(s: &[u8]) -> ReadResult<'_, Head<'_>>
    ensures { Told fields_as
        (on_ok other_head (number s.now))
        (PastPlain (length s.now)) result }
{
    let (n, next) = s.number()?;
    Ok((Head::Other(n), next))
}

#[inline(always)]
fn read_string<'a>(quotation: &[u8], s: &'a [u8]) -> ReadResult<'a, Head<'a>>
    ensures { Told fields_as
        (on_ok string_head (text_behind quotation.now s.now))
        (PastPlain (length s.now)) result }
{
    let (x, next) = read_string_text(quotation, s)?;
    Ok((Head::String(x), next))
}

#[inline(always)]
fn read_name(s: &[u8]) -> ReadResult<'_, Head<'_>>
    ensures { Told fields_as
        (on_ok name_head (text Utf8 text_limit s.now))
        (PastPlain (length s.now)) result }
{
    let (x, next) = s.text(Encoding::Utf8, TEXT_LIMIT)?;
    Ok((Head::Name(x), next))
}

#[tactic(auto, using(crate::proofs::Counts::number_within))]
#[inline(always)]
fn read_template(s: &[u8]) -> ReadResult<'_, Head<'_>>
    ensures { Told fields_as
        (on_ok template_head (number s.now))
        (PastPlain (length s.now)) result }
{
    let (holes, next) = s.number()?;
    Ok((Head::Template(holes), next))
}

#[inline(always)]
fn read_binary(s: &[u8]) -> ReadResult<'_, Head<'_>>
    ensures { Told fields_as
        (on_ok binary_head (flag s.now))
        (PastPlain (length s.now)) result }
{
    let (plus, next) = s.flag()?;
    Ok((Head::Binary(plus), next))
}

#[tactic(auto, using(crate::proofs::Counts::count_within))]
#[inline(always)]
fn read_object(s: &[u8]) -> ReadResult<'_, Head<'_>>
    ensures { Told fields_as
        (on_ok object_head (count property_limit s.now))
        (PastPlain (length s.now)) result }
{
    let (n, next) = s.count(PROPERTY_LIMIT)?;
    Ok((Head::Object(n), next))
}

#[tactic(auto, unfolding(crate::specs::code::Head::call_start))]
#[inline(always)]
fn read_call(s: &[u8]) -> ReadResult<'_, Head<'_>>
    ensures { Told fields_as
        (call_start s.now)
        (PastPlain (length s.now)) result }
{
    // The phase of an import, or 3 for any other callee.
    let (callee, next) = s.below(4)?;
    match ImportPhase::try_from(callee) {
        Ok(phase) => Ok((Head::ImportCall(phase), next)),
        Err(_) => Ok((Head::Call, next)),
    }
}

// A String, and the flag of the attributes behind it.
#[tactic(auto, unfolding(crate::specs::code::Head::specifier_start))]
fn read_specifier<'a>(
    source: &[u8],
    s: &'a [u8],
    levels: usize,
) -> ReadResult<'a, (Quoted<'a>, bool)>
    ensures { Told specifier_as
        (specifier_start source.now levels s.now)
        (PastSpecifier source.now (length s.now)) result }
{
    let (specifier, next) = read_quoted(source, s, levels)?;
    let (has_object, next) = next.flag()?;
    Ok(((specifier, has_object), next))
}

#[tactic(auto, unfolding(crate::specs::code::Head::import_start, wire::specs::Fields::numbered, wire::specs::Fields::below))]
fn read_import<'a>(source: &[u8], s: &'a [u8], levels: usize) -> ReadResult<'a, Head<'a>>
    ensures { Told fields_as
        (import_start source.now levels s.now)
        (PastFields source.now (length s.now)) result }
{
    let (type_only, next) = s.flag()?;
    let (phase, next) = next.byte()?;
    let phase = ImportPhase::try_from(phase)?;
    let (side_effect, next) = next.flag()?;
    let ((specifier, has_object), next) = read_specifier(source, next, levels)?;
    let head = ImportHead {
        type_only,
        phase,
        side_effect,
        specifier,
        has_object,
    };
    Ok((Head::Import(head), next))
}

#[tactic(auto, unfolding(crate::specs::code::Head::named_export_start))]
fn read_named_export<'a>(source: &[u8], s: &'a [u8], levels: usize) -> ReadResult<'a, Head<'a>>
    ensures { Told fields_as
        (named_export_start source.now levels s.now)
        (PastFields source.now (length s.now)) result }
{
    let (type_only, next) = s.flag()?;
    let (named, next) = next.flag()?;
    if named {
        let ((specifier, has_object), next) = read_specifier(source, next, levels)?;
        let head = ExportHead {
            type_only,
            specifier,
            has_object,
        };
        return Ok((Head::ExportFrom(head), next));
    }
    Ok((Head::NamedExport(type_only), next))
}

#[tactic(auto, unfolding(crate::specs::code::Head::export_all_start))]
fn read_export_all<'a>(source: &[u8], s: &'a [u8], levels: usize) -> ReadResult<'a, Head<'a>>
    ensures { Told fields_as
        (export_all_start source.now levels s.now)
        (PastFields source.now (length s.now)) result }
{
    let (type_only, next) = s.flag()?;
    let ((specifier, has_object), next) = read_specifier(source, next, levels)?;
    let head = ExportHead {
        type_only,
        specifier,
        has_object,
    };
    Ok((Head::ExportAll(head), next))
}

#[tactic(auto, unfolding(crate::specs::code::Head::import_type_start))]
fn read_import_type<'a>(source: &[u8], s: &'a [u8], levels: usize) -> ReadResult<'a, Head<'a>>
    ensures { Told fields_as
        (import_type_start source.now levels s.now)
        (PastFields source.now (length s.now)) result }
{
    let (x, next) = read_quoted(source, s, levels)?;
    let (n, next) = next.number()?;
    Ok((Head::ImportType(x, n), next))
}

#[tactic(auto, unfolding(crate::specs::code::Head::import_equals_start))]
fn read_import_equals<'a>(source: &[u8], s: &'a [u8], levels: usize) -> ReadResult<'a, Head<'a>>
    ensures { Told fields_as
        (import_equals_start source.now levels s.now)
        (PastFields source.now (length s.now)) result }
{
    let (external, next) = s.flag()?;
    if external {
        return read_import_require(source, next, levels);
    }
    Ok((Head::ImportEquals, next))
}

#[tactic(auto, unfolding(crate::specs::code::Head::import_require_start))]
fn read_import_require<'a>(source: &[u8], s: &'a [u8], levels: usize) -> ReadResult<'a, Head<'a>>
    ensures { Told fields_as
        (import_require_start source.now levels s.now)
        (PastFields source.now (length s.now)) result }
{
    let (type_only, next) = s.flag()?;
    let (export, next) = next.flag()?;
    let (specifier, next) = read_quoted(source, next, levels)?;
    let head = RequireHead {
        type_only,
        export,
        specifier,
    };
    Ok((Head::ImportRequire(head), next))
}

#[tactic(auto, unfolding(crate::specs::code::Head::module_start, wire::specs::Optional::optional))]
fn read_module<'a>(source: &[u8], s: &'a [u8], levels: usize) -> ReadResult<'a, Head<'a>>
    ensures { Told fields_as
        (module_start source.now levels s.now)
        (PastFields source.now (length s.now)) result }
{
    let (named, next) = s.flag()?;
    let (name, next) = if named {
        let (x, next) = read_quoted(source, next, levels)?;
        (Some(x), next)
    } else {
        (None, next)
    };
    let (n, next) = next.number()?;
    Ok((Head::Module(name, n), next))
}

// The fields of a head, by the span and the tag, where so many levels are left below the node.
#[tactic(auto, using(crate::proofs::Plain::plain_fields), unfolding(crate::specs::code::Head::start, sheet::specs::Nodes::text_behind))]
#[inline(always)]
fn read_fields<'a>(
    source: &[u8],
    s: &'a [u8],
    levels: usize,
    span: Span,
    tag: Tag,
) -> ReadResult<'a, Head<'a>>
    requires { SpanIn source.now span }
    ensures { Told fields_as
        (start source.now levels span (tag_number tag) s.now)
        (PastFields source.now (length s.now)) result }
{
    match tag {
        Tag::Other => read_other(s),
        Tag::String => read_string(&source[span.start..span.end], s),
        Tag::Name => read_name(s),
        Tag::Template => read_template(s),
        Tag::Binary => read_binary(s),
        Tag::Object => read_object(s),
        Tag::Call => read_call(s),
        Tag::Import => read_import(source, s, levels),
        Tag::NamedExport => read_named_export(source, s, levels),
        Tag::ExportAll => read_export_all(source, s, levels),
        Tag::ImportType => read_import_type(source, s, levels),
        Tag::ImportEquals => read_import_equals(source, s, levels),
        Tag::Module => read_module(source, s, levels),
    }
}

// The head of a node, with so many levels left, its own among them.
#[tactic(auto, unfolding(crate::specs::code::Head::head))]
#[inline(always)]
pub fn read_head<'a>(source: &[u8], s: &'a [u8], levels: usize) -> ReadResult<'a, (Span, Head<'a>)>
    ensures { Told head_as
        (head source.now levels s.now)
        (PastHead source.now (length s.now) levels) result }
{
    let (tag, next) = read_tag(s, levels)?;
    let (span, next) = read_span(source, next)?;
    let (head, next) = read_fields(source, next, levels - 1, span, tag)?;
    Ok(((span, head), next))
}
