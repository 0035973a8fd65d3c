// Tables of numbers: the step at the front of one, and whether the whole stands for a row.
ghost use Rattle.std.specs.Prelude.{◌≡◌, ◌+◌, length};
ghost use Rattle.laws.specs.code.Told.{Bounded};
ghost use Rattle.steps.specs.Table.{class_of, argued_by, step_of, row_in};
ghost use Rattle.steps.specs.Answers.{verdict_of};
ghost use Rattle.steps.specs.code.Views.{next_as, StepWithin};

use super::codes::{
    ALPHABETIC, EITHER, FROM, LONGEST, MARKED, NAME_REST, NOT_LF, NOT_QUOTE, NOT_WHITE, ONE, QUOTE,
    SOURCE_MARK, START, TO, WHITE, WHITE_OR_STAR, WORD,
};
use text::class::Class;

// What is wrong with a table.
#[derive(Clone, Copy, Debug, PartialEq, Eq, Hash)]
pub enum Ill {
    // it has more than 255 numbers
    TooLong = 1,
    // where a step begins there is no code of one
    UnknownStep = 2,
    // a class that there is not
    UnknownClass = 3,
    // marks that are neither there nor not there
    UnknownMarks = 4,
    // its numbers end before its last step does, or those of a first alternative
    CutOff = 5,
}

// A step that is passed in one way only, or not at all.
#[derive(Clone, Copy)]
pub enum Plain<'a> {
    Start,
    Word(&'a [u8]),
    One(Class),
    From(bool),
    To,
}

// What a row goes on with, and the numbers that are left behind it; or the two alternatives.
#[derive(Clone, Copy)]
pub enum Step<'a> {
    Done,
    Pass(Plain<'a>, &'a [u8]),
    Longest(Class, &'a [u8]),
    Shortest(Class, &'a [u8]),
    Either(&'a [u8], &'a [u8]),
}

// The class of a number.
#[tactic(auto, unfolding(crate::specs::Table::class_of))]
fn class_of(n: u8) -> Result<Class, Ill>
    ensures { result ≡ class_of n }
{
    match n {
        WHITE => Ok(Class::White),
        NOT_WHITE => Ok(Class::NotWhite),
        WHITE_OR_STAR => Ok(Class::WhiteOrStar),
        NOT_LF => Ok(Class::NotLf),
        QUOTE => Ok(Class::Quote),
        NOT_QUOTE => Ok(Class::NotQuote),
        SOURCE_MARK => Ok(Class::SourceMark),
        ALPHABETIC => Ok(Class::Alphabetic),
        NAME_REST => Ok(Class::NameRest),
        _ => Err(Ill::UnknownClass),
    }
}

// The step of a code that has an argument, `n`, and the numbers that stand behind it.
#[tactic(auto, unfolding(crate::specs::Table::argued_by))]
fn argued(code: u8, n: u8, left: &[u8]) -> Result<Step<'_>, Ill>
    ensures { Bounded (next_as result ≡ argued_by code n left.now) (StepWithin (next_as result) (2 + length left.now)) }
{
    match code {
        WORD => {
            let (word, next) = left.split_at_checked(usize::from(n)).ok_or(Ill::CutOff)?;
            Ok(Step::Pass(Plain::Word(word), next))
        }
        EITHER => {
            let (first, second) = left.split_at_checked(usize::from(n)).ok_or(Ill::CutOff)?;
            Ok(Step::Either(first, second))
        }
        FROM if MARKED < n => Err(Ill::UnknownMarks),
        FROM => Ok(Step::Pass(Plain::From(n == MARKED), left)),
        ONE => Ok(Step::Pass(Plain::One(class_of(n)?), left)),
        LONGEST => Ok(Step::Longest(class_of(n)?, left)),
        _ => Ok(Step::Shortest(class_of(n)?, left)),
    }
}

// The step that the numbers begin with. Inlined, so that a row is run in one loop.
#[tactic(auto, unfolding(crate::specs::Table::step_of))]
#[inline(always)]
pub fn step_of(steps: &[u8]) -> Result<Step<'_>, Ill>
    ensures { Bounded (next_as result ≡ step_of steps.now) (StepWithin (next_as result) (length steps.now)) }
{
    match steps {
        [] => Ok(Step::Done),
        [START, next @ ..] => Ok(Step::Pass(Plain::Start, next)),
        [TO, next @ ..] => Ok(Step::Pass(Plain::To, next)),
        [WORD..=EITHER] => Err(Ill::CutOff),
        [code @ WORD..=EITHER, n, left @ ..] => argued(*code, *n, left),
        _ => Err(Ill::UnknownStep),
    }
}

// Do the numbers stand for a row? Each is looked at once.
#[tactic(auto, using(crate::proofs::Decoding::judged))]
pub fn check(steps: &[u8]) -> Result<(), Ill>
    ensures { result ≡ verdict_of (row_in steps.now) }
{
    let mut rest = steps;
    loop {
        match step_of(rest)? {
            Step::Done => return Ok(()),
            Step::Pass(_, next) | Step::Longest(_, next) | Step::Shortest(_, next) => rest = next,
            Step::Either(first, second) => {
                check(first)?;
                rest = second;
            }
        }
    }
}
