// The comments that a rule reads, and what it captures there.
ghost use Rattle.std.specs.Prelude.{◌≡◌, length, option_map};
ghost use Rattle.laws.specs.Last.{last_of as last};
ghost use Rattle.laws.specs.code.Told.{Bounded};
ghost use Rattle.wire.specs.Optional.{encode_optional};
ghost use Rattle.analysis.specs.Place.{FoundWithin};
ghost use Rattle.sheet.specs.code.Commented.{placed_in};
ghost use Rattle.report.specs.Encode.{encode_specifier};
ghost use Rattle.report.specs.Buffer.{Wrote};
ghost use Rattle.pragmas.specs.Readings.{first_of, last_of};
ghost use Rattle.pragmas.specs.Pragmas.{given_to};
ghost use Rattle.pragmas.specs.code.Captured.{specifier_as};
ghost use Rattle.pragmas.specs.code.Views.{asked, find_rule, taken_by, taken_as};

use super::taken::Taken;
use analysis::{
    Capture, find_deno_types, find_jsx_import_source, find_jsx_import_source_types,
    find_source_mapping_url, find_ts_self_types, find_ts_types,
};
use ecma426::find_source_map;
use report::writer::Writer;
use sheet::commented::{Comments, PlacedComment};
use sheet::names::{CommentKind, MediaType, is_block, is_javascript, is_jsx};

// The rules that give one specifier.
#[derive(Clone, Copy)]
pub enum Rule {
    TsSelfTypes,
    JsxImportSource,
    JsxImportSourceTypes,
    SourceMapUrl,
    StandardSourceMap,
    TsTypes,
    DenoTypes,
}

impl Rule {
    // What it finds in a body.
    fn find(self, body: &[u8]) -> Option<Capture>
        ensures { Bounded (result ≡ find_rule self body.now) (FoundWithin result (length body.now)) }
    {
        match self {
            Rule::TsSelfTypes => find_ts_self_types(body),
            Rule::JsxImportSource => find_jsx_import_source(body),
            Rule::JsxImportSourceTypes => find_jsx_import_source_types(body),
            Rule::SourceMapUrl => find_source_mapping_url(body),
            Rule::StandardSourceMap => find_source_map(body),
            Rule::TsTypes => find_ts_types(body),
            Rule::DenoTypes => find_deno_types(body),
        }
    }

    // Does it take comments of this kind? The JSX rules take block comments only.
    fn takes(self, kind: CommentKind) -> bool
        ensures { result ≡ (asked self).kind kind }
    {
        match self {
            Rule::JsxImportSource | Rule::JsxImportSourceTypes => is_block(kind),
            Rule::TsSelfTypes
            | Rule::SourceMapUrl
            | Rule::StandardSourceMap
            | Rule::TsTypes
            | Rule::DenoTypes => true,
        }
    }

    // Does it ask for this media?
    fn asks(self, media: MediaType) -> bool
        ensures { result ≡ (asked self).media media }
    {
        match self {
            Rule::JsxImportSource | Rule::JsxImportSourceTypes => is_jsx(media),
            Rule::TsSelfTypes => is_javascript(media),
            Rule::SourceMapUrl | Rule::StandardSourceMap | Rule::TsTypes | Rule::DenoTypes => true,
        }
    }
}

// What a rule reads in a comment.
pub fn read<'a>(c: &PlacedComment<'a>, rule: Rule) -> Option<Taken<'a>>
    ensures { taken_as result ≡ taken_by rule c.now.source c.now.comment }
{
    if !rule.takes(c.comment().kind) {
        return None;
    }
    let found = rule.find(c.body())?;
    Some(Taken::new(c, found))
}

// What it reads in the first of the comments that it reads.
#[tactic(auto, using(crate::proofs::Turns::first_placed), unfolding(crate::specs::Readings::first_of))]
pub fn find_first<'a>(comments: &'a Comments<'a>, rule: Rule) -> Option<Taken<'a>>
    ensures { taken_as result ≡ first_of (taken_by rule comments.now.source) comments.now.comments }
{
    for c in comments.iter() {
        if let Some(taken) = read(&c, rule) {
            return Some(taken);
        }
    }
    None
}

// And in the last of them.
#[tactic(auto, using(crate::proofs::Turns::last_placed, crate::proofs::Turns::turn_back), unfolding(crate::specs::Readings::first_of))]
pub fn find_last<'a>(comments: &'a Comments<'a>, rule: Rule) -> Option<Taken<'a>>
    ensures { taken_as result ≡ last_of (taken_by rule comments.now.source) comments.now.comments }
{
    for c in comments.iter().rev() {
        if let Some(taken) = read(&c, rule) {
            return Some(taken);
        }
    }
    None
}

// The first of them, where the sheet's media is one that the rule asks for.
#[tactic(auto, unfolding(crate::specs::Readings::first_of))]
pub fn first_reading<'a>(
    media: MediaType,
    comments: &'a Comments<'a>,
    rule: Rule,
) -> Option<Taken<'a>>
    ensures { taken_as result ≡ first_of (taken_by rule comments.now.source)
        (given_to (asked rule) media comments.now.comments) }
{
    if rule.asks(media) {
        return find_first(comments, rule);
    }
    None
}

// The last comment, if there is one.
#[tactic(auto, using(crate::proofs::Turns::last_is, crate::proofs::Turns::last_none))]
pub fn last_comment<'a>(comments: &'a Comments<'a>) -> Option<PlacedComment<'a>>
    ensures { result ≡ option_map (placed_in comments.now.source) (last comments.now.comments) }
{
    comments.iter().next_back()
}

// Writes a reading as an optional.
#[tactic(auto, using(report::proofs::Buffers::more_cons), unfolding(wire::specs::Optional::encode_optional))]
pub fn put_reading(reading: Option<Taken>, w: &mut Writer)
    ensures { Wrote w.old w.new (encode_optional encode_specifier (option_map specifier_as (taken_as reading.entry))) }
{
    w.put_flag(reading.is_some());
    if let Some(taken) = reading {
        taken.put(w);
    }
}
