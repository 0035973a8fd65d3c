// Prints the citation of the sheet on standard input.
#![tactic(auto)]

ghost use Rattle.std.specs.Prelude.{◌≡◌, ◌≤◌, length};
ghost use Rattle.laws.specs.code.Told.{Meant};
ghost use Rattle.sheet.specs.Sheet.{Sheet};
ghost use Rattle.sheet_codec.specs.SheetOf.{SheetOf};
ghost use Rattle.cite.specs.Cited.{line_room, cited, EditorColumns, KeptLines};

use citation::cite::{cite_refusal, cite_report};
use input::answer_input;
use module_info::module_info_with_replaced;
use report_reader::fields::{read_number, read_text};
use sheet::limits::SHEET_LIMIT;
use std::{array, io};

// The source of an accepted sheet, which stands behind the media byte.
fn find_source(sheet: &[u8]) -> &[u8]
    ensures { (t : Sheet) → SheetOf sheet.now t → result.now ≡ t.source }
{
    let (_, next) = read_number(sheet);
    let (source, _) = read_text(next);
    source
}

// Writes the lines for a sheet.
fn cite<'a>(
    sheet: &[u8],
    report: &mut [u8; REPORT_ROOM],
    notes: &mut [usize; NOTE_ROOM],
    lines: &'a mut [u8],
) -> &'a [u8]
    requires { line_room ≤ length lines.old }
    ensures { Meant (result.now ≡ cited sheet.now) (EditorColumns sheet.now × KeptLines sheet.now) }
{
    let source = find_source(sheet);
    let length = match module_info_with_replaced(sheet, report, notes) {
        Ok(n) => cite_report(&report[..n], source, &notes[1..], lines),
        Err(refusal) => cite_refusal(refusal.number(), lines),
    };
    &lines[..length]
}

// Room for a report.
const REPORT_ROOM: usize = 65536;

// Room for the two numbers of each dependency of every report, behind how many there are: a dependency has at least eight bytes.
const NOTE_ROOM: usize = 1 + REPORT_ROOM / 4;

// Room for the lines of every report.
const LINE_ROOM: usize = 4 * REPORT_ROOM;

// One byte more than the longest sheet has, so that a longer one is refused.
const INPUT_ROOM: usize = SHEET_LIMIT + 1;

// Nothing is cited of what cannot be read.
fn main(rt: HostRuntime) -> io::Result<()> {
    let mut sheet = [0u8; INPUT_ROOM];
    let mut lines: [u8; LINE_ROOM] = array::repeat(0);
    answer_input(rt, "cite", &mut sheet, |sheet| {
        let mut report: [u8; REPORT_ROOM] = array::repeat(0);
        let mut notes: [usize; NOTE_ROOM] = array::repeat(0);
        cite(sheet, &mut report, &mut notes, &mut lines)
    })
}
