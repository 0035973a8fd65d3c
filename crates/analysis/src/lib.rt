// The patterns of src/analysis.rs: references, pragmas and source map comments in the body of a comment.
#![tactic(auto)]

pub mod matcher;
pub mod mode;

ghost use Rattle.std.specs.Prelude.{◌≡◌, ◌+◌, ◌≤◌, ◌<◌, ◌^◌, length};
ghost use Rattle.laws.specs.code.Told.{Bounded};
ghost use Rattle.analysis.specs.Row.{find, is_found};
ghost use Rattle.analysis.specs.Place.{Inside, FoundWithin, mark_width, place_of, text_of};
ghost use Rattle.analysis.specs.Patterns.{triple_slash_row, path_row, types_row, resolution_mode_row, jsx_import_source_row, jsx_import_source_types_row};
ghost use Rattle.analysis.specs.Patterns.{source_mapping_url_row, ts_self_types_row, ts_types_row, deno_types_row};

use self::matcher::{
    assigned_at, bare_at, find_attribute, find_jsx, find_pragma, match_word, one_at,
    quoted_some_at, reference_ends,
};
use text::class::{Class, run_end};

// What a match captured: from one place of the body to another, and whether marks stand around it. The Rust's `is_quoteless` is the opposite.
#[derive(Clone, Copy, Default)]
pub struct Capture {
    pub quoted: bool,
    pub from: usize,
    pub to: usize,
}

// 01's place of what a pattern reads: the range from one byte offset of the body to another.
#[derive(Clone, Copy)]
pub struct Place {
    pub from: usize,
    pub to: usize,
}

// (?i)^/\s*<reference\s.*?/>
#[tactic(auto, using(crate::proofs::RowSteps::triple_slash_row_lem), unfolding(crate::specs::Row::first, crate::specs::Row::match_at))]
pub fn is_comment_triple_slash_reference(body: &[u8]) -> bool
    ensures { result ≡ is_found (find triple_slash_row body.now) }
{
    let Some(a) = match_word(body, 0, b"/") else {
        return false;
    };
    let b = run_end(body, a, Class::White);
    let Some(d) = match_word(body, b, b"<reference") else {
        return false;
    };
    let Some(e) = one_at(body, d, Class::White) else {
        return false;
    };
    reference_ends(body, e)
}

// (?i)\spath\s*=\s*["']([^"']*)["']
pub fn find_path_reference(body: &[u8]) -> Option<Capture>
    ensures { Bounded (result ≡ find path_row body.now) (FoundWithin result (length body.now)) }
{
    find_attribute(body, b"path")
}

// (?i)\stypes\s*=\s*["']([^"']*)["']
pub fn find_types_reference(body: &[u8]) -> Option<Capture>
    ensures { Bounded (result ≡ find types_row body.now) (FoundWithin result (length body.now)) }
{
    find_attribute(body, b"types")
}

// (?i)\sresolution-mode\s*=\s*["']([^"']*)["']
pub fn find_resolution_mode(body: &[u8]) -> Option<Capture>
    ensures { Bounded (result ≡ find resolution_mode_row body.now) (FoundWithin result (length body.now)) }
{
    find_attribute(body, b"resolution-mode")
}

// (?i)^[\s*]*@jsxImportSource\s+(\S+)
pub fn find_jsx_import_source(body: &[u8]) -> Option<Capture>
    ensures { Bounded (result ≡ find jsx_import_source_row body.now) (FoundWithin result (length body.now)) }
{
    find_jsx(body, b"@jsxImportSource")
}

// (?i)^[\s*]*@jsxImportSourceTypes\s+(\S+)
pub fn find_jsx_import_source_types(body: &[u8]) -> Option<Capture>
    ensures { Bounded (result ≡ find jsx_import_source_types_row body.now) (FoundWithin result (length body.now)) }
{
    find_jsx(body, b"@jsxImportSourceTypes")
}

// (?i)^[#@]\s*sourceMappingURL\s*=\s*(\S+)
#[tactic(auto, using(crate::proofs::RowSteps::source_mapping_row), unfolding(crate::specs::Row::first, crate::specs::Row::match_at))]
pub fn find_source_mapping_url(body: &[u8]) -> Option<Capture>
    ensures { Bounded (result ≡ find source_mapping_url_row body.now) (FoundWithin result (length body.now)) }
{
    let n = one_at(body, 0, Class::SourceMark)?;
    let a = run_end(body, n, Class::White);
    let b = assigned_at(body, a, b"sourceMappingURL")?;
    bare_at(body, b)
}

// (?i)^\s*@ts-self-types\s*=\s*["']([^"']+)["']
pub fn find_ts_self_types(body: &[u8]) -> Option<Capture>
    ensures { Bounded (result ≡ find ts_self_types_row body.now) (FoundWithin result (length body.now)) }
{
    find_pragma(body, b"@ts-self-types")
}

// (?i)^\s*@ts-types\s*=\s*["']([^"']+)["']
pub fn find_ts_types(body: &[u8]) -> Option<Capture>
    ensures { Bounded (result ≡ find ts_types_row body.now) (FoundWithin result (length body.now)) }
{
    find_pragma(body, b"@ts-types")
}

// (?i)^\s*@deno-types\s*=\s*(?:["']([^"']+)["']|(\S+))
#[tactic(auto, using(crate::proofs::RowSteps::deno_types_row_lem), unfolding(crate::specs::Row::first, crate::specs::Row::match_at))]
pub fn find_deno_types(body: &[u8]) -> Option<Capture>
    ensures { Bounded (result ≡ find deno_types_row body.now) (FoundWithin result (length body.now)) }
{
    let a = run_end(body, 0, Class::White);
    let b = assigned_at(body, a, b"@deno-types")?;
    quoted_some_at(body, b).or_else(|| bare_at(body, b))
}

// The captured part of the body.
pub fn specifier(body: &[u8], found: Capture) -> &[u8]
    requires { Inside found (length body.now) }
    ensures { result.now ≡ text_of body.now found }
{
    &body[found.from..found.to]
}

// The captured range, with the two marks around it where it is quoted.
#[tactic(auto, unfolding(crate::specs::Place::place_of))]
pub fn place_of(found: Capture) -> Place
    requires { (mark_width found ≤ found.from) × (found.to + mark_width found < 2 ^ 64) }
    ensures { result ≡ place_of found }
{
    let width = usize::from(found.quoted);
    Place {
        from: found.from - width,
        to: found.to + width,
    }
}
