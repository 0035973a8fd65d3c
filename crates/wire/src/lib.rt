// Numbers, flags and texts as sheets and reports hold them, read by a cursor.
#![tactic(auto)]

pub mod refusals;

ghost use Rattle.std.specs.Prelude.{◌≡◌, ◌||◌, leb, ltb, length};
ghost use Rattle.laws.specs.code.Told.{Told};
ghost use Rattle.wire.specs.Fields.{byte, below, flag};
ghost use Rattle.wire.specs.Number.{groups, number};
ghost use Rattle.wire.specs.Text.{count, text};
ghost use Rattle.wire.specs.code.Views.{read_as, text_as, Past, PlaceValue};

use refusals::Refusal;
use text::utf8::Encoding;

// What is read, with the cursor past it, or a refusal.
pub type ReadResult<'a, T> = Result<(T, &'a [u8]), Refusal>;

// A place in a sheet, held as the bytes that are left to read. Its methods read from their front.
pub trait Cursor<'a>: Sized {
    fn byte(self) -> ReadResult<'a, usize>;

    fn below(self, limit: usize) -> ReadResult<'a, usize>;

    fn flag(self) -> ReadResult<'a, bool>;

    fn number(self) -> ReadResult<'a, usize>;

    fn count(self, limit: usize) -> ReadResult<'a, usize>;

    fn text(self, encoding: Encoding, limit: usize) -> ReadResult<'a, &'a [u8]>;
}

// A last group is not 0, unless it is the only one.
fn shortest(scale: usize, group: usize) -> bool
    ensures { result ≡ leb scale 1 || ltb 0 group }
{
    scale <= 1 || 0 < group
}

// At most so many groups, the first with its place value, above groups that make up `low`. A function that calls itself is never inlined, so that
// `number` stays short.
#[tactic(auto, using(crate::proofs::NumberGroups::group_steps, crate::proofs::FieldsAtFront::byte_small), unfolding(crate::specs::Number::last_group))]
fn groups(s: &[u8], left: usize, scale: usize, low: usize) -> ReadResult<'_, usize>
    requires { PlaceValue left scale low }
    ensures { Told read_as (groups left scale low s.now) (Past (length s.now)) result }
{
    if left == 0 {
        return Err(Refusal::CutOff);
    }
    let (b, next) = s.byte()?;
    if b < 128 {
        let n = low + scale * b;
        if shortest(scale, b) {
            if n <= 4294967295 {
                return Ok((n, next));
            }
        }
        return Err(Refusal::CutOff);
    }
    groups(next, left - 1, scale * 128, low + scale * (b - 128))
}

impl<'a> Cursor<'a> for &'a [u8] {
    // A byte.
    #[tactic(auto, using(crate::proofs::FieldsAtFront::byte_none))]
    #[inline(always)]
    fn byte(self) -> ReadResult<'a, usize>
        ensures { Told read_as (byte self.now) (Past (length self.now)) result }
    {
        match self {
            [b, next @ ..] => Ok((*b as usize, next)),
            [] => Err(Refusal::CutOff),
        }
    }

    // A byte below a limit.
    #[tactic(auto, unfolding(crate::specs::Fields::below))]
    #[inline(always)]
    fn below(self, limit: usize) -> ReadResult<'a, usize>
        ensures { Told read_as (below limit self.now) (Past (length self.now)) result }
    {
        let (b, next) = self.byte()?;
        if b < limit {
            Ok((b, next))
        } else {
            Err(Refusal::Byte)
        }
    }

    // A byte, 0 or 1.
    #[tactic(auto, unfolding(crate::specs::Fields::flag))]
    #[inline(always)]
    fn flag(self) -> ReadResult<'a, bool>
        ensures { Told read_as (flag self.now) (Past (length self.now)) result }
    {
        let (b, next) = self.below(2)?;
        Ok((b == 1, next))
    }

    // A number: at most five groups of seven bits, low group first, in its shortest form. One of up to three groups is read right here.
    #[tactic(auto, using(crate::proofs::NumberGroups::first_place), unfolding(crate::specs::Number::number))]
    #[inline(always)]
    fn number(self) -> ReadResult<'a, usize>
        ensures { Told read_as (number self.now) (Past (length self.now)) result }
    {
        match self {
            [a, next @ ..] if *a < 128 => Ok((*a as usize, next)),
            [a, b, next @ ..] if 0 < *b && *b < 128 => {
                Ok((128 * (*b as usize) + *a as usize - 128, next))
            }
            [a, b, c, next @ ..] if 128 <= *b && 0 < *c && *c < 128 => {
                let n = 16384 * (*c as usize) + 128 * (*b as usize) + *a as usize - 16512;
                Ok((n, next))
            }
            _ => groups(self, 5, 1, 0),
        }
    }

    // A number up to a limit: a count, or a length.
    #[tactic(auto, unfolding(crate::specs::Text::count))]
    #[inline(always)]
    fn count(self, limit: usize) -> ReadResult<'a, usize>
        ensures { Told read_as (count limit self.now) (Past (length self.now)) result }
    {
        let (n, next) = self.number()?;
        if n <= limit {
            Ok((n, next))
        } else {
            Err(Refusal::Limit)
        }
    }

    // A text: a length up to a limit, and as many bytes, well-formed.
    #[tactic(auto, unfolding(crate::specs::Text::text, crate::specs::Fields::bytes))]
    #[inline(always)]
    fn text(self, encoding: Encoding, limit: usize) -> ReadResult<'a, &'a [u8]>
        ensures { Told text_as (text encoding limit self.now) (Past (length self.now)) result }
    {
        let (n, next) = self.count(limit)?;
        let (x, next) = next.split_at_checked(n).ok_or(Refusal::CutOff)?;
        if text::utf8::well_formed(x, encoding) {
            Ok((x, next))
        } else {
            Err(Refusal::Text)
        }
    }
}
