// References and pragmas: what the patterns read in the comments that document 01 gives to each rule.
#![tactic(auto)]

pub mod origins;
pub mod readings;
pub mod references;
pub mod taken;

ghost use Rattle.std.specs.Prelude.{◌≡◌, option_map};
ghost use Rattle.wire.specs.Optional.{encode_optional};
ghost use Rattle.report.specs.Encode.{encode_specifier};
ghost use Rattle.report.specs.Buffer.{Wrote};
ghost use Rattle.pragmas.specs.Asks.{source_map_url_rule};
ghost use Rattle.pragmas.specs.Readings.{read_by, first_of, last_of};
ghost use Rattle.pragmas.specs.Pragmas.{given_to, ts_or_deno_types, types_in};
ghost use Rattle.pragmas.specs.code.Captured.{specifier_as};
ghost use Rattle.pragmas.specs.code.Views.{asked, read_rule, taken_as};

use self::readings::{Rule, find_last, first_reading, last_comment, put_reading, read};
use self::taken::Taken;
use report::writer::Writer;
use sheet::commented::{Comments, PlacedComment};
use sheet::names::{MediaType, Side};

// `analyze_ts_self_types`, `analyze_jsx_import_source` and `analyze_jsx_import_source_types`, by the rule: the first comment that it reads, in the
// media that it asks for.
#[tactic(auto, using(crate::proofs::Counted::read_first))]
pub fn analyze_first(rule: Rule, media: MediaType, comments: &Comments, w: &mut Writer)
    ensures { Wrote w.old w.new
        (encode_optional encode_specifier
        (first_of (read_rule rule comments.now.source) (given_to (asked rule) media comments.now.comments))) }
{
    let reading = first_reading(media, comments, rule);
    put_reading(reading, w);
}

// The source map: the last comment that reads.
#[tactic(auto, using(crate::proofs::Counted::read_last), unfolding(crate::specs::Readings::read_by))]
pub fn analyze_source_map_url(comments: &Comments, w: &mut Writer)
    ensures { Wrote w.old w.new
        (encode_optional encode_specifier
        (last_of (read_by source_map_url_rule comments.now.source) comments.now.comments)) }
{
    let reading = find_last(comments, Rule::SourceMapUrl);
    put_reading(reading, w);
}

// What the ts-types pattern reads in a comment, or else the deno-types one.
#[tactic(auto, unfolding(crate::specs::Readings::read_by, crate::specs::Pragmas::ts_or_deno_types))]
fn read_types<'a>(c: &PlacedComment<'a>) -> Option<Taken<'a>>
    ensures { option_map specifier_as (taken_as result) ≡ ts_or_deno_types c.now.source c.now.comment }
{
    if let Some(taken) = read(c, Rule::TsTypes) {
        return Some(taken);
    }
    read(c, Rule::DenoTypes)
}

// The types of an entry: the ts-types pattern, or else the deno-types one, in the last comment of the leading group at `start`.
#[tactic(auto, unfolding(crate::specs::Pragmas::types_in))]
pub fn analyze_ts_or_deno_types(comments: &Comments, start: usize, w: &mut Writer)
    ensures { Wrote w.old w.new
        (encode_optional encode_specifier
        (types_in comments.now.source comments.now.comments comments.now.groups start)) }
{
    let group = comments.of(comments.group_at(Side::Leading, start));
    let reading = last_comment(&group).and_then(|c| read_types(&c));
    put_reading(reading, w);
}
