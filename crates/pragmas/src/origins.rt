// How each reference and pragma was found: the rule that gave it, and where its comment starts.
ghost use mathlib.Core.List.{flat_map};
ghost use Rattle.report.specs.Buffer.{Wrote};
ghost use Rattle.report.specs.Origin.{encode_origin};
ghost use Rattle.pragmas.specs.Readings.{all_of};
ghost use Rattle.pragmas.specs.Origins.{reference_origin, head_origins, end_origins, ts_or_deno_origin, types_origins};
ghost use Rattle.pragmas.specs.code.Views.{taken_as, origin_as, encode_any};

use super::readings::{Rule, find_last, first_reading, last_comment, read};
use super::references::{Reference, read_reference};
use super::taken::Taken;
use report::origins::{EntryRule, put_origin};
use report::writer::Writer;
use sheet::commented::{Comments, PlacedComment};
use sheet::names::{MediaType, Side};

// Writes the rule and the comment of a reading, if there is one.
#[tactic(auto, using(report::proofs::Buffers::wrote_none))]
fn put_reading_origin(entry: EntryRule, reading: Option<Taken>, w: &mut Writer)
    ensures { Wrote w.old w.new (encode_any encode_origin (origin_as entry (taken_as reading.entry))) }
{
    if let Some(taken) = reading {
        put_origin(entry, taken.comment().comment().span.start, w);
    }
}

// Writes those of a comment's reference, if it has one.
#[tactic(auto, using(report::proofs::Buffers::wrote_none), unfolding(crate::specs::Origins::reference_origin))]
fn put_reference_origin(c: &PlacedComment, w: &mut Writer)
    ensures { Wrote w.old w.new (encode_any encode_origin (reference_origin c.now.source c.now.comment)) }
{
    let start = c.comment().span.start;
    match read_reference(c) {
        Some(Reference::Path(_)) => put_origin(EntryRule::Path, start, w),
        Some(Reference::Types(_, _)) => put_origin(EntryRule::Types, start, w),
        None => {}
    }
}

// Writes those of the references of the comments.
#[tactic(auto, using(crate::proofs::Turns::each_placed), unfolding(crate::specs::Readings::all_of))]
fn put_reference_origins(comments: &Comments, w: &mut Writer)
    ensures { Wrote w.old w.new
        (flat_map encode_origin (all_of (reference_origin comments.now.source) comments.now.comments)) }
{
    for c in comments.iter() {
        put_reference_origin(&c, w);
    }
}

// Writes those of the head group: references, self types, the JSX source and its types.
#[tactic(auto, using(crate::proofs::Counted::origin_first, crate::proofs::Turns::optional_each, laws::proofs::Lists::flat_map_append, report::proofs::Buffers::more_append), unfolding(crate::specs::Readings::read_by, crate::specs::Origins::origin_by, crate::specs::Origins::first_origin, crate::specs::Origins::head_origins))]
pub fn put_head_origins(media: MediaType, comments: &Comments, w: &mut Writer)
    ensures { Wrote w.old w.new
        (flat_map encode_origin (head_origins media comments.now.source comments.now.comments)) }
{
    let self_types = first_reading(media, comments, Rule::TsSelfTypes);
    let jsx_source = first_reading(media, comments, Rule::JsxImportSource);
    let jsx_types = first_reading(media, comments, Rule::JsxImportSourceTypes);
    put_reference_origins(comments, w);
    put_reading_origin(EntryRule::SelfTypes, self_types, w);
    put_reading_origin(EntryRule::JsxImportSource, jsx_source, w);
    put_reading_origin(EntryRule::JsxImportSourceTypes, jsx_types, w);
}

// Writes that of the group at the program's end: the source map.
#[tactic(auto, using(crate::proofs::Counted::origin_last, crate::proofs::Turns::optional_each), unfolding(crate::specs::Readings::read_by, crate::specs::Origins::origin_by, crate::specs::Origins::end_origins))]
pub fn put_end_origins(comments: &Comments, w: &mut Writer)
    ensures { Wrote w.old w.new
        (flat_map encode_origin (end_origins comments.now.source comments.now.comments)) }
{
    let reading = find_last(comments, Rule::SourceMapUrl);
    put_reading_origin(EntryRule::SourceMap, reading, w);
}

// Writes that of the types that a comment names: by the ts-types pattern, or else by the deno-types one.
#[tactic(auto, unfolding(crate::specs::Readings::read_by, crate::specs::Origins::origin_by, crate::specs::Origins::ts_or_deno_origin))]
fn put_types_origin(c: &PlacedComment, w: &mut Writer)
    ensures { Wrote w.old w.new (encode_any encode_origin (ts_or_deno_origin c.now.source c.now.comment)) }
{
    let reading = read(c, Rule::TsTypes);
    if reading.is_some() {
        return put_reading_origin(EntryRule::TsTypes, reading, w);
    }
    let reading = read(c, Rule::DenoTypes);
    put_reading_origin(EntryRule::DenoTypes, reading, w);
}

// Writes that of the types of an entry whose node starts at `start`, if it has types.
#[tactic(auto, using(crate::proofs::Turns::optional_each, report::proofs::Buffers::wrote_none), unfolding(crate::specs::Origins::types_origins))]
pub fn put_types_origins(comments: &Comments, start: usize, w: &mut Writer)
    ensures { Wrote w.old w.new
        (flat_map encode_origin
        (types_origins comments.now.source comments.now.comments comments.now.groups start)) }
{
    let group = comments.of(comments.group_at(Side::Leading, start));
    if let Some(c) = last_comment(&group) {
        put_types_origin(&c, w);
    }
}
