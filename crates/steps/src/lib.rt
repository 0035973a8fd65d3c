// Patterns as rows of steps: tables of numbers, and a stepping matcher that runs any of them.
#![tactic(auto)]

pub mod codes;
pub mod patterns;
mod run;
pub mod table;

ghost use Rattle.std.specs.Prelude.{◌≡◌};
ghost use Rattle.analysis.specs.Row.{find};
ghost use Rattle.steps.specs.Patterns.{row_of, table_of};
ghost use Rattle.steps.specs.Answers.{Answer, FindsRow, FindsTable, Stepped, number_of, words_of};

use self::patterns::{
    DENO_TYPES, JSX_IMPORT_SOURCE, JSX_IMPORT_SOURCE_TYPES, PATH, RESOLUTION_MODE,
    SOURCE_MAPPING_URL, TRIPLE_SLASH, TS_SELF_TYPES, TS_TYPES, TYPES,
};
use self::run::match_from;
use self::table::{Ill, check};
use analysis::Capture;

// The most numbers that a table has.
const LONGEST_TABLE: usize = 255;

// What a row finds, or what is wrong with its table.
pub type Answer = Result<Option<Capture>, Ill>;

// The ten patterns.
#[derive(Clone, Copy, Debug, PartialEq, Eq, Hash)]
pub enum Pattern {
    TripleSlash,
    Path,
    Types,
    ResolutionMode,
    JsxImportSource,
    JsxImportSourceTypes,
    SourceMappingUrl,
    TsSelfTypes,
    TsTypes,
    DenoTypes,
}

// The preferred match in a body of the row that the numbers stand for.
fn find_row(table: &[u8], body: &[u8]) -> Option<Capture>
    ensures { FindsRow table.now body.now result }
{
    let captured = Capture::default();
    (0..=body.len()).find_map(|at| match_from(table, body, at, captured))
}

// Runs any table on any body.
pub fn match_row(table: &[u8], body: &[u8]) -> Answer
    ensures { Stepped table.now body.now result }
{
    if LONGEST_TABLE < table.len() {
        return Err(Ill::TooLong);
    }
    check(table)?;
    Ok(find_row(table, body))
}

// Runs a table that stands for a row.
#[tactic(auto, using(crate::proofs::Tables::finds_table))]
fn run_table(table: &[u8], body: &[u8]) -> Option<Capture>
    ensures { FindsTable table.now body.now result }
{
    match_row(table, body).unwrap_or(None)
}

// The table of a pattern.
#[tactic(auto, unfolding(crate::specs::Patterns::table_of))]
fn table_of(pattern: Pattern) -> &'static [u8]
    ensures { result.now ≡ table_of pattern }
{
    match pattern {
        Pattern::TripleSlash => &TRIPLE_SLASH,
        Pattern::Path => &PATH,
        Pattern::Types => &TYPES,
        Pattern::ResolutionMode => &RESOLUTION_MODE,
        Pattern::JsxImportSource => &JSX_IMPORT_SOURCE,
        Pattern::JsxImportSourceTypes => &JSX_IMPORT_SOURCE_TYPES,
        Pattern::SourceMappingUrl => &SOURCE_MAPPING_URL,
        Pattern::TsSelfTypes => &TS_SELF_TYPES,
        Pattern::TsTypes => &TS_TYPES,
        Pattern::DenoTypes => &DENO_TYPES,
    }
}

// Runs the table of one of the ten patterns: what is found is what its finder finds, with the same captured range.
#[tactic(auto, using(crate::proofs::Tables::tables))]
pub fn by_steps(pattern: Pattern, body: &[u8]) -> Option<Capture>
    ensures { result ≡ find (row_of pattern) body.now }
{
    run_table(table_of(pattern), body)
}

// What is wrong with a table, by a number.
fn ill_number(ill: Ill) -> u64
    ensures { result ≡ number_of ill }
{
    ill as u64
}

// An answer, as four numbers: the C interface.
fn words_of(answer: Answer) -> [u64; 4]
    ensures { result ≡ words_of answer }
{
    match answer {
        Ok(None) => [0, 0, 0, 0],
        Ok(Some(k)) => [1, u64::from(k.quoted), k.from as u64, k.to as u64],
        Err(ill) => [2, ill_number(ill), 0, 0],
    }
}

// `match_row` for C. Its answer is four numbers: 0 where nothing is found; 1, 1 if it stands in marks, from where, to where; or 2, and what is wrong.
pub fn steps_match(table: &[u8], body: &[u8], out: &mut [u64; 4])
    ensures { (a : Answer) × Stepped table.now body.now a × (out.new ≡ words_of a) }
{
    *out = words_of(match_row(table, body));
}
