// Prints whether the delivery on standard input is in order.
#![tactic(auto)]

ghost use Rattle.std.specs.Prelude.{◌≡◌, Some, Err, ◌++◌, ◌+◌, ◌*◌, ◌≤◌, length};
ghost use Rattle.laws.specs.code.Told.{Bounded};
ghost use Rattle.report.specs.Buffer.{Wrote};
ghost use Rattle.citation.specs.Citation.{decimal};
ghost use Rattle.delivery.specs.Order.{order_of};
ghost use Rattle.delivery.specs.code.Views.{late_module_as, judgement_as};
ghost use Rattle.order.specs.Printed.{line_room, printed_answer, printed_order};

use citation::lines::{put_digits, put_text};
use delivery::check::DELIVERY_LIMIT;
use delivery::judge::{LateModule, RefusedModule, judge};
use input::answer_input;
use report::writer::Writer;
use std::{array, io};

// Writes a word and a number.
#[tactic(auto, using(report::proofs::Buffers::more_append))]
fn put_counted(word: &[u8], n: usize, w: &mut Writer)
    ensures { Wrote w.old w.new (word.now ++ decimal n) }
{
    w.put_bytes(word);
    put_digits(20, n, w);
}

// Writes `module I entry J NAME`.
fn put_late(first: LateModule, w: &mut Writer)
    ensures { Wrote w.old w.new (printed_answer (late_module_as (Some first.entry))) }
{
    put_counted(b"module ", first.module, w);
    put_counted(b" entry ", first.late.entry, w);
    w.put(b' ');
    put_text(first.late.specifier, w);
    w.put(b'\n');
}

// Writes `refused N module I`.
fn put_refused(refused: RefusedModule, w: &mut Writer)
    ensures { Wrote w.old w.new (printed_answer (judgement_as (Err refused))) }
{
    put_counted(b"refused ", usize::from(refused.refusal.number()), w);
    put_counted(b" module ", refused.module, w);
    w.put(b'\n');
}

// Writes the line for a delivery.
#[tactic(auto, using(crate::proofs::Shown::order_short), unfolding(crate::specs::Printed::printed_answer))]
fn put_order(delivery: &[u8], work: &mut [u8], w: &mut Writer)
    ensures { Bounded
        (Wrote w.old w.new (printed_answer (order_of (length work.old) delivery.now)))
        (length (printed_answer (order_of (length work.old) delivery.now)) ≤ 4 * length work.old + 64) }
{
    match judge(delivery, work) {
        Ok(None) => w.put_bytes(b"in order\n"),
        Ok(Some(first)) => put_late(first, w),
        Err(refused) => put_refused(refused, w),
    }
}

// Writes the line for a delivery.
fn print_order<'a>(delivery: &[u8], work: &mut [u8; WORK_ROOM], line: &'a mut [u8]) -> &'a [u8]
    requires { line_room ≤ length line.old }
    ensures { result.now ≡ printed_order delivery.now }
{
    let mut w = Writer::new(line);
    put_order(delivery, work, &mut w);
    let length = w.written();
    &line[..length]
}

// Bytes of the buffer in which a delivery is judged.
const WORK_ROOM: usize = 65536;

// Room for the line of every delivery.
const LINE_ROOM: usize = 4 * WORK_ROOM + 64;

// One byte more than the longest delivery has, so that a longer one is refused.
const INPUT_ROOM: usize = DELIVERY_LIMIT + 1;

// Nothing is printed of what cannot be read.
fn main(rt: HostRuntime) -> io::Result<()> {
    let mut delivery = [0u8; INPUT_ROOM];
    let mut line: [u8; LINE_ROOM] = array::repeat(0);
    answer_input(rt, "order", &mut delivery, |delivery| {
        let mut work: [u8; WORK_ROOM] = array::repeat(0);
        print_order(delivery, &mut work, &mut line)
    })
}
