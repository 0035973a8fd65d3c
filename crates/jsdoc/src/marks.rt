// The readings of a body, marked in a table over it: each in the cell at which its quote begins.
ghost use Rattle.std.specs.Prelude.{◌≡◌, ℕ, ◌-◌, ◌≤◌, ◌<◌, length};
ghost use Rattle.analysis.specs.Mode.{Mode};
ghost use Rattle.jsdoc.specs.Reader.{parse_jsdoc_dynamic_import, parse_jsdoc_import_decl};
ghost use Rattle.jsdoc.specs.code.Answers.{Room, hit_as};
ghost use Rattle.jsdoc.specs.code.Marks.{ByMark, Stays, hit_marked, all_marked, readings_marked};

use super::answers::{JsDocImport, Mode};
use super::dynamic_import::parse_jsdoc_dynamic_import;
use super::import_decl::parse_jsdoc_import_decl;
use super::pieces::from_first;

// Marks what was found where `rest` of the body is left: the cell by what stands there, that place and the mode.
fn mark_one<T: Copy, F: Fn(T, usize, Mode) -> T>(
    table: &mut [T],
    rest: &[u8],
    found: Option<JsDocImport>,
    mark: &F,
)
    requires rest { length rest.now ≤ length table.old }
    requires room { Room (length rest.now) found }
    requires callable { (x : T) (m : Mode) → F.pre mark.now x (length table.old - length rest.now) m }
    ensures { ByMark (F.post mark.now) λ f. (d : T)
        → table.new ≡ hit_marked f d (length table.old) rest.now (hit_as found.entry) table.old }
{
    if let Some(import) = found {
        let base = table.len() - rest.len();
        let at = table.len() - import.start.len();
        table[at] = mark(table[at], base, import.mode);
    }
}

// Marks the readings from the braces. The next brace to look at is the first from where the search ended, so that
// each byte is searched once. A brace before that has the same reading, if any: a cell that is marked stays as it
// is for a later place.
#[tactic(auto, using(crate::proofs::Marking::braces_marked))]
fn mark_braces<T: Copy, F: Fn(T, usize, Mode) -> T>(body: &[u8], table: &mut [T], mark: &F)
    requires same { length table.old ≡ length body.now }
    requires callable { (x : T) (i : ℕ) (m : Mode) → i < length body.now → F.pre mark.now x i m }
    ensures { ByMark (F.post mark.now) λ f. Stays f → (d : T)
        → table.new ≡ all_marked f d parse_jsdoc_dynamic_import (length body.now) body.now table.old }
{
    let mut rest = body;
    while let Some(brace) = from_first(rest, b'{') {
        let read = parse_jsdoc_dynamic_import(brace);
        mark_one(table, brace, read.found, mark);
        rest = read.end;
    }
}

// Marks the readings from each `@import`: the next place to look at is the next `@`.
#[tactic(auto, using(crate::proofs::Marking::room_at, crate::proofs::Marking::declarations_end))]
#[inline(never)]
fn mark_declarations<T: Copy, F: Fn(T, usize, Mode) -> T>(body: &[u8], table: &mut [T], mark: &F)
    requires same { length table.old ≡ length body.now }
    requires callable { (x : T) (i : ℕ) (m : Mode) → i < length body.now → F.pre mark.now x i m }
    ensures { ByMark (F.post mark.now) λ f. (d : T)
        → table.new ≡ all_marked f d parse_jsdoc_import_decl (length body.now) body.now table.old }
{
    let mut rest = body;
    while let Some(at) = from_first(rest, b'@') {
        mark_one(table, at, parse_jsdoc_import_decl(at), mark);
        rest = &at[1..];
    }
}

// Marks all readings of `body`.
pub fn mark_readings<T: Copy, F: Fn(T, usize, Mode) -> T>(body: &[u8], table: &mut [T], mark: &F)
    requires same { length table.old ≡ length body.now }
    requires callable { (x : T) (i : ℕ) (m : Mode) → i < length body.now → F.pre mark.now x i m }
    ensures { ByMark (F.post mark.now) λ f. Stays f → (d : T) → table.new ≡ readings_marked f d body.now table.old }
{
    mark_braces(body, table, mark);
    mark_declarations(body, table, mark);
}
