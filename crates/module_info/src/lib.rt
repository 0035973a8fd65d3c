// The module information of a sheet, as a report in a lent buffer.
#![tactic(auto)]

pub mod judge;
pub mod source_map;

ghost use Rattle.std.specs.Prelude.{◌≡◌, ◌≤◌, true, List, ℕ, length, replicate};
ghost use Rattle.laws.specs.code.Told.{Beside};
ghost use Rattle.text.specs.declared.utf8.Encoding.TheVariants.{Utf8};
ghost use Rattle.text.specs.Utf8.{formed};
ghost use Rattle.report.specs.Buffer.{Wrote};
ghost use Rattle.report.specs.Encode.{encode};
ghost use Rattle.report.specs.Answer.{zeros, Outcome, outcome_as, fitted};
ghost use Rattle.dep_entries.specs.code.Notes.{all_noted};
ghost use Rattle.module_info.specs.Information.{module_info, default_info, packed};
ghost use Rattle.module_info.specs.Replaced.{noted, notes_with, NotesRight};
ghost use Rattle.module_info.specs.code.Views.{accepted_as};
ghost use Rattle.module_info.specs.code.Pieces.{Sound, dependency_bytes, head_bytes, import_bytes, rest_bytes};
ghost use Rattle.module_info.specs.Demands.{Demands};

use self::judge::{Accepted, judge};
use dep::walk::analyze_program_dependencies;
use dep_entries::Items;
use jsdoc_list::imports::analyze_jsdoc_imports;
use pragmas::readings::Rule;
use pragmas::references::analyze_ts_references;
use pragmas::{analyze_first, analyze_source_map_url};
use report::writer::{Outcome, Writer, refuse_all};
use sheet::commented::Comments;
use sheet::limits::SOURCE_LIMIT;
use sheet::names::MediaType;
use sheet::tables::Tables;

// The script flag and the dependencies, with their rows in the notes.
fn put_dependencies(accepted: &Accepted, w: &mut Writer, notes: &mut [usize])
    ensures { Beside (Wrote w.old w.new (dependency_bytes (accepted_as accepted.now).sheet))
        (notes.new ≡ all_noted notes.old (noted (accepted_as accepted.now).sheet)) }
{
    let comments = accepted.comments();
    let tree = accepted.parts().tree;
    w.put_flag(tree.program.script);
    let mut items = Items { writer: w, notes };
    analyze_program_dependencies(&comments, tree.root, tree.entries, tree.reach, &mut items);
}

// What the head group gives: references, self types and both JSX sources.
fn put_head(accepted: &Accepted, w: &mut Writer)
    ensures { Wrote w.old w.new (head_bytes (accepted_as accepted.now).sheet) }
{
    let head = accepted.head_comments();
    let media = accepted.parts().front.media;
    analyze_ts_references(&head, w);
    analyze_first(Rule::TsSelfTypes, media, &head, w);
    analyze_first(Rule::JsxImportSource, media, &head, w);
    analyze_first(Rule::JsxImportSourceTypes, media, &head, w);
}

// The JSDoc imports, by ticks that are no fewer than the source has bytes, and come cleared.
fn put_ticked_imports(media: MediaType, comments: &Comments, ticks: &mut [u8], w: &mut Writer)
    requires utf8 { formed Utf8 0 comments.now.source ≡ true }
    requires enough { length comments.now.source ≤ length ticks.old }
    requires cleared { ticks.old ≡ replicate (length ticks.old) 0 }
    ensures { Wrote w.old w.new (import_bytes media comments.now) }
{
    let long = comments.source().len();
    analyze_jsdoc_imports(media, comments, &mut ticks[0..long], w);
}

// The same of the longest source. A function clears all its arrays where it begins, so each array stands in one that is called for its sake, and is
// never inlined.
#[inline(never)]
fn put_long_imports(media: MediaType, comments: &Comments, w: &mut Writer)
    requires { Sound comments.now.source }
    ensures { Wrote w.old w.new (import_bytes media comments.now) }
{
    let mut ticks = [0u8; SOURCE_LIMIT];
    put_ticked_imports(media, comments, &mut ticks, w);
}

// The same of a short source.
#[inline(never)]
fn put_short_imports(media: MediaType, comments: &Comments, w: &mut Writer)
    requires utf8 { formed Utf8 0 comments.now.source ≡ true }
    requires short { length comments.now.source ≤ 4096 }
    ensures { Wrote w.old w.new (import_bytes media comments.now) }
{
    let mut ticks = [0u8; 4096];
    put_ticked_imports(media, comments, &mut ticks, w);
}

// The JSDoc imports. What is lent is not the accepted sheet, which stays where `judge` answers it: to move it takes `memcpy`.
fn put_imports(media: MediaType, comments: &Comments, w: &mut Writer)
    requires { Sound comments.now.source }
    ensures { Wrote w.old w.new (import_bytes media comments.now) }
{
    if comments.source().len() <= 4096 {
        put_short_imports(media, comments, w);
    } else {
        put_long_imports(media, comments, w);
    }
}

// The JSDoc imports and the source map.
#[tactic(auto, using(report::proofs::Buffers::more_append), unfolding(crate::specs::code::Pieces::rest_bytes, pragmas::specs::Pragmas::last_by))]
fn put_rest(accepted: &Accepted, w: &mut Writer)
    ensures { Wrote w.old w.new (rest_bytes (accepted_as accepted.now).sheet) }
{
    put_imports(accepted.parts().front.media, &accepted.comments(), w);
    analyze_source_map_url(&accepted.end_comments(), w);
}

// The parts of the report of a sheet, one after the other. The notes take a row for each dependency.
#[tactic(auto, using(crate::proofs::Written::report_written))]
fn put_noted_report(accepted: &Accepted, w: &mut Writer, notes: &mut [usize])
    ensures { Beside (Wrote w.old w.new (encode (module_info (accepted_as accepted.now).sheet)))
        (notes.new ≡ all_noted notes.old (noted (accepted_as accepted.now).sheet)) }
{
    put_dependencies(accepted, w, notes);
    put_head(accepted, w);
    put_rest(accepted, w);
}

// The report of an accepted sheet with its notes, which come cleared and are cleared where the report is refused.
pub fn write_noted_report(accepted: &Accepted, buffer: &mut [u8], notes: &mut [usize]) -> Outcome
    requires { notes.old ≡ zeros (length notes.old) }
    ensures { Beside (outcome_as result buffer.new ≡ fitted (length buffer.old) (encode (module_info (accepted_as accepted.now).sheet)))
        (notes.new ≡ notes_with (length notes.old) (noted (accepted_as accepted.now).sheet) (outcome_as result buffer.new).number) }
{
    let mut w = Writer::new(buffer);
    put_noted_report(accepted, &mut w, notes);
    let outcome = w.finish();
    if outcome.is_err() {
        notes.fill(0);
    }
    outcome
}

// The report of the default information: eight zero bytes.
pub fn write_default(buffer: &mut [u8]) -> Outcome
    ensures { outcome_as result buffer.new ≡ fitted (length buffer.old) (encode default_info) }
{
    let mut w = Writer::new(buffer);
    w.put_bytes(&[0; 8]);
    w.finish()
}

// The report of a sheet, or the first refusal that it meets; of no bytes the default report.
pub fn module_info(sheet: &[u8], buffer: &mut [u8]) -> Outcome
    ensures { Demands sheet.now (length buffer.old) result buffer.new }
{
    module_info_with_replaced(sheet, buffer, &mut [])
}

// The same report, with a row of two numbers for each dependency: where its node starts, and how many characters were replaced in its text. The first
// of the notes says how many numbers follow it, the rows in order, as far as there is room. All else is zero, and all of them on a refusal.
pub fn module_info_with_replaced(sheet: &[u8], buffer: &mut [u8], notes: &mut [usize]) -> Outcome
    ensures { Beside (Demands sheet.now (length buffer.old) result buffer.new)
        (NotesRight sheet.now (length notes.old) (outcome_as result buffer.new).number notes.new) }
{
    let mut tables = Tables::new();
    notes.fill(0);
    match judge(sheet, &mut tables) {
        Ok(None) => write_default(buffer),
        Ok(Some(accepted)) => write_noted_report(&accepted, buffer, notes),
        Err(refusal) => refuse_all(buffer, refusal),
    }
}

// Number and length in one.
fn pack(outcome: Outcome) -> u64
    ensures { (buffer : List ℕ) → result ≡ packed (outcome_as outcome buffer) }
{
    match outcome {
        Ok(n) => 256 * ((n as u64) % 72057594037927936),
        Err(refusal) => u64::from(refusal.number()),
    }
}

// The report function for C: number + 256 × length, and the buffer filled.
pub fn module_info_answer(sheet: &[u8], buffer: &mut [u8]) -> u64
    ensures { (o : Outcome) × Demands sheet.now (length buffer.old) o buffer.new
        × (result ≡ packed (outcome_as o buffer.new)) }
{
    pack(module_info(sheet, buffer))
}

// The same with the notes, for C.
pub fn module_info_with_replaced_answer(sheet: &[u8], buffer: &mut [u8], notes: &mut [usize]) -> u64
    ensures { (o : Outcome) × Demands sheet.now (length buffer.old) o buffer.new
        × NotesRight sheet.now (length notes.old) (outcome_as o buffer.new).number notes.new
        × (result ≡ packed (outcome_as o buffer.new)) }
{
    pack(module_info_with_replaced(sheet, buffer, notes))
}
