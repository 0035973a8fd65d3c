// Runs the report function on a stored list of sheets, `replay.bin`, and prints how many it accepts and refuses, and how
// many of its answers differ from the stored ones.
//
// The list: the number of sheets; of each the length and bytes of the sheet, the number of the answer (a byte), and the
// length and bytes of the report. Numbers take four bytes, low byte first.
#![tactic(auto)]

ghost use Rattle.std.specs.Prelude.{◌≡◌, ◌==◌, List, ℕ, ◌+◌, ◌≤◌, length};
ghost use Rattle.std.specs.List.{list_all};
ghost use Rattle.laws.specs.Decoded.{on_ok};
ghost use Rattle.laws.specs.code.Told.{Bounded, Told};
ghost use Rattle.input.specs.code.InputWithin.{InputWithin};
ghost use Rattle.text.specs.Bytes.{same};
ghost use Rattle.report.specs.Answer.{outcome_as};
ghost use Rattle.replay.specs.Stored.{four_bytes, piece, row, stored_rows};
ghost use Rattle.replay.specs.Compared.{padded, stored_answer, same_answer, ran_of, counted, tally_of};
ghost use Rattle.replay.specs.code.Views.{number_as, piece_as, step_as};
ghost use Rattle.replay.specs.code.Bounds.{NumberFits, Room, Printable};

use input::read_input;
use module_info::module_info;
use report::writer::Outcome;
use std::fs::File;
use std::io;

// The bytes that are read at most.
const SPACE: usize = 131072;

// Whether a sheet was accepted, and whether the answer is the stored one.
#[derive(Clone, Copy)]
struct Ran {
    accepted: bool,
    same: bool,
}

// How many sheets were accepted and refused, and how many answers differ.
#[derive(Clone, Copy)]
struct Counts {
    accepted: u64,
    refused: u64,
    differ: u64,
}

// A number of four bytes.
#[tactic(auto, using(crate::proofs::StoredRows::four_front, crate::proofs::StoredRows::four_short))]
fn number(list: &[u8]) -> Option<(usize, &[u8])>
    ensures { Told number_as (four_bytes list.now) NumberFits result }
{
    let (bytes, next) = list.split_first_chunk()?;
    Some((u32::from_le_bytes(*bytes) as usize, next))
}

// The bytes behind a length, if the list holds them whole.
#[tactic(auto, unfolding(crate::specs::Stored::piece, wire::specs::Fields::bytes))]
fn piece(list: &[u8]) -> Option<(&[u8], &[u8])>
    ensures { piece_as result ≡ piece list.now }
{
    let (n, next) = number(list)?;
    next.split_at_checked(n)
}

// Is every byte zero?
fn all_zero(bytes: &[u8]) -> bool
    ensures { result ≡ list_all (λ b. b == 0) bytes.now }
{
    bytes.iter().all(|b| *b == 0)
}

// The report begins the buffer, and every byte behind it is zero.
#[tactic(auto, using(crate::proofs::Compared::other_front, crate::proofs::Compared::zeros_behind))]
fn holds_report(buffer: &[u8], report: &[u8]) -> bool
    ensures { result ≡ same buffer.now (padded (length buffer.now) report.now) }
{
    buffer.strip_prefix(report).is_some_and(all_zero)
}

// The number of an answer.
fn number_of(outcome: Outcome) -> u8
    ensures { (buffer : List ℕ) → result ≡ (outcome_as outcome buffer).number }
{
    match outcome {
        Ok(_) => 0,
        Err(refusal) => refusal.number(),
    }
}

// The length of its report.
fn length_of(outcome: Outcome) -> usize
    ensures { (buffer : List ℕ) → result ≡ (outcome_as outcome buffer).written }
{
    outcome.unwrap_or(0)
}

// The answer, with what the buffer holds then, is the stored one.
fn is_stored(outcome: Outcome, buffer: &[u8], number: u8, report: &[u8]) -> bool
    ensures { result ≡ same_answer (outcome_as outcome buffer.now) (stored_answer (length buffer.now) number report.now) }
{
    number_of(outcome) == number
        && length_of(outcome) == report.len()
        && holds_report(buffer, report)
}

// Runs a sheet, in a buffer that holds something else before, and compares the answer.
fn run(sheet: &[u8], number: u8, report: &[u8], buffer: &mut [u8]) -> Ran
    ensures { result ≡ ran_of (length buffer.old) (record { sheet = sheet.entry.now; number = number; report = report.now }) }
{
    buffer.fill(165);
    let outcome = module_info(sheet, buffer);
    Ran {
        accepted: outcome.is_ok(),
        same: is_stored(outcome, buffer, number, report),
    }
}

// Runs the first sheet of a list; none where the list ends too early.
#[tactic(auto, using(crate::proofs::StoredRows::byte_first, wire::proofs::FieldsAtFront::byte_none), unfolding(crate::specs::Stored::row))]
fn replay_one<'a>(list: &'a [u8], buffer: &mut [u8]) -> Option<(Ran, &'a [u8])>
    ensures { step_as result ≡ on_ok (ran_of (length buffer.old)) (row list.now) }
{
    let (sheet, next) = piece(list)?;
    let (number, next) = next.split_first()?;
    let (report, next) = piece(next)?;
    let ran = run(sheet, *number, report, buffer);
    Some((ran, next))
}

impl Counts {
    // Counts a sheet.
    fn with(self, ran: Ran) -> Counts
        requires { Room 1 self }
        ensures { Bounded (result ≡ counted self ran) ((left : ℕ) → Room (1 + left) self → Room left result) }
    {
        Counts {
            accepted: self.accepted + u64::from(ran.accepted),
            refused: self.refused + u64::from(!ran.accepted),
            differ: self.differ + u64::from(!ran.same),
        }
    }

    // One line each.
    fn print(self, rt: &impl Print) -> io::Result<()>
        requires { Room 0 self }
    {
        print_line(rt, self.accepted + self.refused, "sheets")?;
        print_line(rt, self.accepted, "accepted")?;
        print_line(rt, self.refused, "refused")?;
        print_line(rt, self.differ, "differ")
    }
}

// A count and what it counts.
fn print_line(rt: &impl Print, n: u64, what: &str) -> io::Result<()> {
    println!(rt; "{n} {what}")
}

// Runs every sheet of the list, and counts; none where the list is not read just to its end.
#[tactic(auto, using(crate::proofs::StoredRows::in_rows))]
fn replay(list: &[u8], buffer: &mut [u8]) -> Option<Counts>
    ensures { Bounded (result ≡ tally_of (length buffer.old) (stored_rows list.now)) (Printable result) }
{
    let mut counts = Counts {
        accepted: 0,
        refused: 0,
        differ: 0,
    };
    let (rows, mut next) = number(list)?;
    for _ in 0..rows {
        let (ran, behind) = replay_one(next, buffer)?;
        counts = counts.with(ran);
        next = behind;
    }
    next.is_empty().then_some(counts)
}

// The counts, or that the list is odd.
fn print_replay(rt: &impl Print, list: &[u8]) -> io::Result<()> {
    let mut buffer = [0u8; 65536];
    match replay(list, &mut buffer) {
        Some(counts) => counts.print(rt),
        None => print_unreadable(rt),
    }
}

// In place of the counts.
fn print_unreadable(rt: &impl Print) -> io::Result<()> {
    println!(rt; "unreadable")
}

// Reads the file.
fn read_list(rt: &HostRuntime, space: &mut [u8]) -> io::Result<usize>
    ensures { InputWithin space.new result }
{
    let mut file = File::open(rt, "replay.bin")?;
    read_input(&mut file, space)
}

// A file that is absent or cannot be read is unreadable, and so is one that fills the space, since it may be longer.
fn main(rt: HostRuntime) -> io::Result<()> {
    let mut space = [0u8; SPACE];
    match read_list(&rt, &mut space) {
        Ok(n) if n < SPACE => print_replay(&rt, &space[..n]),
        _ => print_unreadable(&rt),
    }
}
