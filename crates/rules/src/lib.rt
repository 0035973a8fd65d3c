// Each entry with its rule: beside the report, how each types specifier, reference, pragma and JSDoc import was found.
#![tactic(auto)]

ghost use Rattle.std.specs.Prelude.{◌≡◌, ℕ, length, Ok};
ghost use mathlib.Core.List.{List, [], flat_map};
ghost use Rattle.report.specs.Buffer.{Wrote};
ghost use Rattle.report.specs.Origin.{encode_origin};
ghost use Rattle.report.specs.Encode.{encode};
ghost use Rattle.report.specs.Answer.{outcome_as, fitted};
ghost use Rattle.dep.specs.Collect.{starts_of};
ghost use Rattle.module_info.specs.Information.{module_info, default_info};
ghost use Rattle.module_info.specs.Replaced.{noted, notes_with};
ghost use Rattle.module_info.specs.code.Views.{accepted_as};
ghost use Rattle.module_info.specs.code.Pieces.{commented};
ghost use Rattle.rules.specs.code.Pieces.{comment_origins, types_bytes};
ghost use Rattle.rules.specs.code.Rows.{starts_in};
ghost use Rattle.rules.specs.code.Cleared.{cleared_as};
ghost use Rattle.rules.specs.Rules.{Ruled, rules_of, both_fitted, both_of, DemandsOfBoth, ruled_number, ruled_lengths};

use jsdoc_list::notes::put_jsdoc_origins;
use module_info::judge::{Accepted, judge};
use module_info::{write_default, write_noted_report};
use pragmas::origins::{put_end_origins, put_head_origins, put_types_origins};
use report::writer::{Outcome, Writer};
use sheet::limits::{ENTRY_LIMIT, SOURCE_LIMIT};
use sheet::tables::Tables;
use wire::refusals::Refusal;

// Both lengths.
#[derive(Clone, Copy)]
pub struct Lengths {
    pub report: usize,
    pub rules: usize,
}

// What is answered: both lengths, or a refusal.
pub type Ruled = Result<Lengths, Refusal>;

// Room for the notes: how many numbers follow, and a row for each of as many dependencies as a sheet can have.
const NOTE_NUMBERS: usize = 1 + 2 * ENTRY_LIMIT;

// The rows in the notes of an accepted sheet, one for each dependency.
fn rows_in<'a>(accepted: &Accepted, notes: &'a [usize; NOTE_NUMBERS]) -> &'a [[usize; 2]]
    ensures { notes.now ≡ notes_with (length notes.now) (noted (accepted_as accepted.now).sheet) 0
        → starts_in result.now ≡ starts_of (noted (accepted_as accepted.now).sheet) }
{
    let (rows, _) = notes[1..].as_chunks::<2>();
    &rows[..accepted.parts().tree.entries]
}

// Writes the origins of types, dependency by dependency, by where the node of each starts.
#[tactic(auto, using(crate::proofs::Origins::types_next, crate::proofs::Origins::types_end))]
fn put_types_rules(accepted: &Accepted, rows: &[[usize; 2]], w: &mut Writer)
    ensures { Wrote w.old w.new (types_bytes (commented (accepted_as accepted.now).sheet) (starts_in rows.now)) }
{
    let comments = accepted.comments();
    for [start, _] in rows {
        put_types_origins(&comments, *start, w);
    }
}

// Writes those of what the head group gives, of the JSDoc imports and of the source map. Never inlined, so that its table is cleared once.
#[inline(never)]
#[tactic(auto, using(report::proofs::Buffers::more_append, laws::proofs::Lists::flat_map_append), unfolding(crate::specs::code::Pieces::comment_origins))]
fn put_comment_rules(accepted: &Accepted, w: &mut Writer)
    ensures { Wrote w.old w.new (flat_map encode_origin (comment_origins (accepted_as accepted.now).sheet)) }
{
    let media = accepted.parts().front.media;
    put_head_origins(media, &accepted.head_comments(), w);
    let mut origins = [0u16; SOURCE_LIMIT];
    put_jsdoc_origins(media, &accepted.comments(), &mut origins, w);
    put_end_origins(&accepted.end_comments(), w);
}

// Writes the rules of an accepted sheet, with the starts of its dependencies' nodes in the rows.
#[tactic(auto, using(crate::proofs::Origins::rules_written))]
fn put_rules(accepted: &Accepted, rows: &[[usize; 2]], w: &mut Writer)
    ensures { starts_in rows.now ≡ starts_of (noted (accepted_as accepted.now).sheet)
        → Wrote w.old w.new (rules_of (accepted_as accepted.now).sheet) }
{
    put_types_rules(accepted, rows, w);
    put_comment_rules(accepted, w);
}

// Both lengths, where the rules found room beside an accepted report of that length; else refusal 16.
fn finish_rules(report: usize, rules: Outcome) -> Ruled
    ensures { (a b buffer out : List ℕ) (size room : ℕ) → outcome_as (Ok report) buffer ≡ fitted size a
        → outcome_as rules out ≡ fitted room b
        → cleared_as result buffer out ≡ both_fitted size room a b }
{
    match rules {
        Ok(rules) => Ok(Lengths { report, rules }),
        Err(_) => Err(Refusal::Rules),
    }
}

// The report of an accepted sheet, and its rules. Never inlined, so that its notes are cleared once.
#[inline(never)]
fn write_ruled_report(accepted: &Accepted, buffer: &mut [u8], rules: &mut [u8]) -> Ruled
    ensures { cleared_as result buffer.new rules.new
        ≡ both_fitted (length buffer.old) (length rules.old)
        (encode (module_info (accepted_as accepted.now).sheet)) (rules_of (accepted_as accepted.now).sheet) }
{
    let mut notes = [0usize; NOTE_NUMBERS];
    let report = write_noted_report(accepted, buffer, &mut notes)?;
    let mut w = Writer::new(rules);
    put_rules(accepted, rows_in(accepted, &notes), &mut w);
    finish_rules(report, w.finish())
}

// The default report, without rules.
fn write_ruled_default(buffer: &mut [u8], rules: &mut [u8]) -> Ruled
    ensures { cleared_as result buffer.new rules.new
        ≡ both_fitted (length buffer.old) (length rules.old) (encode default_info) [] }
{
    let report = write_default(buffer)?;
    finish_rules(report, Writer::new(rules).finish())
}

// The report of a sheet and its rules; or the first refusal, which leaves both buffers free.
fn write_both(sheet: &[u8], buffer: &mut [u8], rules: &mut [u8]) -> Ruled
    ensures { cleared_as result buffer.new rules.new ≡ both_of sheet.now (length buffer.old) (length rules.old) }
{
    let mut tables = Tables::new();
    match judge(sheet, &mut tables)? {
        None => write_ruled_default(buffer, rules),
        Some(accepted) => write_ruled_report(&accepted, buffer, rules),
    }
}

// The report of a sheet, and beside it the rule and the place of each entry that a comment gives; or the first refusal.
pub fn with_rules(sheet: &[u8], buffer: &mut [u8], rules: &mut [u8]) -> Ruled
    ensures { DemandsOfBoth sheet.now (length buffer.old) (length rules.old) result
        buffer.new rules.new }
{
    let answer = write_both(sheet, buffer, rules);
    if answer.is_err() {
        buffer.fill(0);
        rules.fill(0);
    }
    answer
}

// Both lengths of an answer, for C.
fn lengths_of(answer: Ruled) -> [u64; 2]
    ensures { result ≡ ruled_lengths answer }
{
    match answer {
        Ok(both) => [both.report as u64, both.rules as u64],
        Err(_) => [0; 2],
    }
}

// Its number.
fn ruled_number(answer: Ruled) -> u64
    ensures { result ≡ ruled_number answer }
{
    match answer {
        Ok(_) => 0,
        Err(refusal) => u64::from(refusal.number()),
    }
}

// The same for C: the number, and two lengths, the report's and that of the rules.
pub fn module_info_with_rules(
    sheet: &[u8],
    buffer: &mut [u8],
    rules: &mut [u8],
    lengths: &mut [u64; 2],
) -> u64
    ensures { (o : Ruled) × DemandsOfBoth sheet.now (length buffer.old) (length rules.old) o
        buffer.new rules.new
        × (result ≡ ruled_number o) × (lengths.new ≡ ruled_lengths o) }
{
    let answer = with_rules(sheet, buffer, rules);
    *lengths = lengths_of(answer);
    ruled_number(answer)
}
