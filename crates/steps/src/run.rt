// The stepping matcher. Its calls nest once for each run and each alternative of a row: never as deep as a run is long.
ghost use Rattle.std.specs.Prelude.{◌≤◌, ◌<◌, length};
ghost use Rattle.laws.specs.code.Told.{Bounded};
ghost use Rattle.analysis.specs.Row.{longest, shortest};
ghost use Rattle.steps.specs.Answers.{Passes, PassedBy, Precedes, FirstOf};
ghost use Rattle.steps.specs.code.Views.{plain_as};

use super::table::{Plain, Step, step_of};
use analysis::Capture;
use analysis::matcher::{match_word, one_at};
use text::class::{Class, run_end};
use text::position::goes_on;

// How far a match has come: up to which place, and what is captured before it.
#[derive(Clone, Copy)]
pub struct Reached {
    pub at: usize,
    pub captured: Capture,
}

// Passes a plain step, and answers how far the match has come behind it, if it is passed.
#[tactic(auto, unfolding(analysis::specs::Row::all))]
fn pass(plain: Plain, body: &[u8], from: Reached) -> Option<Reached>
    requires { from.at ≤ length body.now }
    ensures { Bounded (Passes (plain_as plain.entry) body.now from result) (PassedBy result (length body.now)) }
{
    let at = from.at;
    let mut reached = from;
    match plain {
        Plain::Start if at == 0 => {}
        Plain::Start => return None,
        Plain::Word(word) => reached.at = match_word(body, at, word)?,
        Plain::One(class) => reached.at = one_at(body, at, class)?,
        Plain::From(quoted) => {
            reached.captured.quoted = quoted;
            reached.captured.from = at;
        }
        Plain::To => reached.captured.to = at,
    }
    Some(reached)
}

// Where the character begins that ends at `end`.
fn char_before(s: &[u8], end: usize) -> usize
    requires { (0 < end) × (end ≤ length s.now) }
    ensures { Bounded (Precedes s.now end result) (result < end) }
{
    s[..end].iter().rposition(|b| !goes_on(*b)).unwrap_or(0)
}

// A run, the longer ones first, and the steps behind it: one character back at a time.
#[cycle(run)]
fn match_longest(steps: &[u8], body: &[u8], from: Reached, class: Class) -> Option<Capture>
    requires { from.at ≤ length body.now }
    ensures { FirstOf (longest class) steps.now body.now from result }
{
    let mut end = run_end(body, from.at, class);
    loop {
        let found = match_from(steps, body, end, from.captured);
        if found.is_some() {
            return found;
        }
        if end <= from.at {
            return None;
        }
        end = char_before(body, end);
    }
}

// The shorter ones first.
#[cycle(run)]
fn match_shortest(steps: &[u8], body: &[u8], from: Reached, class: Class) -> Option<Capture>
    requires { from.at ≤ length body.now }
    ensures { FirstOf (shortest class) steps.now body.now from result }
{
    let captured = from.captured;
    let mut end = from.at;
    loop {
        let found = match_from(steps, body, end, captured);
        if found.is_some() {
            return found;
        }
        end = one_at(body, end, class)?;
    }
}

// The preferred match, from how far it has come on, of the row that the numbers stand for.
#[tactic(auto, using(crate::proofs::Running::on_steps))]
#[cycle(run)]
pub fn match_from(steps: &[u8], body: &[u8], at: usize, captured: Capture) -> Option<Capture>
    requires { at ≤ length body.now }
    ensures { FirstOf (λ q. q) steps.now body.now (record { at = at; captured = captured }) result }
{
    let mut rest = steps;
    // field by field: a copy of the whole would wait until each part of it is written
    let Capture { quoted, from, to } = captured;
    let mut here = Reached {
        at,
        captured: Capture { quoted, from, to },
    };
    loop {
        let Ok(step) = step_of(rest) else {
            return None;
        };
        match step {
            Step::Done => return Some(here.captured),
            Step::Pass(plain, next) => {
                here = pass(plain, body, here)?;
                rest = next;
            }
            Step::Longest(class, next) => return match_longest(next, body, here, class),
            Step::Shortest(class, next) => return match_shortest(next, body, here, class),
            Step::Either(first, second) => {
                let found = match_from(first, body, here.at, here.captured);
                if found.is_some() {
                    return found;
                }
                rest = second;
            }
        }
    }
}
