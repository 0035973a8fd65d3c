// The reading of a report's fields from the front of some bytes: what is read, and the bytes behind it. Where no such field stands it is said only that
// a text is a part of the bytes, and that what is left is their end.
ghost use Rattle.std.specs.Prelude.{◌≡◌, List, ◌++◌, ℕ, length};
ghost use mathlib.Core.List.{flat_map};
ghost use Rattle.laws.specs.Codec.{IfThere, All};
ghost use Rattle.wire.specs.Text.{encode_text};
ghost use Rattle.wire.specs.Optional.{encode_optional};
ghost use Rattle.report.specs.ModuleInfo.{SpecifierWithRange, KeyValue, DynamicTemplatePart};
ghost use Rattle.report.specs.Encode.{encode_list, encode_position, encode_range, encode_specifier};
ghost use Rattle.report.specs.Encode.{encode_key_value, encode_attributes};
ghost use Rattle.report.specs.Valid.{Short, ValidPosition, ValidRange, ValidSpecifier};
ghost use Rattle.report.specs.Valid.{ValidKeyValue, ValidAttributes};
ghost use Rattle.laws.specs.code.Among.{EndOf};
ghost use Rattle.report_reader.specs.code.FromFront.{ReadsBack, Skips, Number, Flag};

use report::names::AttributesKind;
use text::position::Position;
use wire::Cursor;

// The lines and columns of a start and of an end, all of them numbers that can be written.
#[derive(Clone, Copy)]
pub struct PositionRange {
    pub start: Position,
    pub end: Position,
    pub ghost start_valid: { ValidPosition start },
    pub ghost end_valid: { ValidPosition end },
}

// A number, or a byte below 128, which is the number that it is.
pub fn read_number(s: &[u8]) -> (usize, &[u8])
    ensures { Number s.now result.0 result.1.now }
{
    s.number().unwrap_or((0, &[]))
}

// A flag: a byte, 0 or 1.
pub fn read_flag(s: &[u8]) -> (bool, &[u8])
    ensures answer { Flag s.now result.0 result.1.now }
    ensures rest { EndOf result.1.now s.now }
{
    let (byte, next) = read_number(s);
    (byte != 0, next)
}

// A text: a number, and as many bytes.
pub fn read_text(s: &[u8]) -> (&[u8], &[u8])
    ensures answer { ReadsBack encode_text Short s.now result.0.now result.1.now }
    ensures rest { EndOf (result.0.now ++ result.1.now) s.now }
{
    let (n, next) = read_number(s);
    next.split_at_checked(n).unwrap_or((&[], next))
}

// A position: its line and its column.
#[tactic(auto, using(laws::proofs::Among::ends), unfolding(report::specs::Encode::encode_position))]
fn read_position(s: &[u8]) -> (Position, &[u8])
    ensures answer { ReadsBack encode_position ValidPosition s.now result.0 result.1.now }
    ensures bounds { ValidPosition result.0 }
    ensures rest { EndOf result.1.now s.now }
{
    let (line, next) = read_number(s);
    let (column, next) = read_number(next);
    (Position { line, column }, next)
}

// A range: the positions of its start and its end.
#[tactic(auto, using(laws::proofs::Among::ends), unfolding(report::specs::Encode::encode_range))]
pub fn read_range(s: &[u8]) -> (PositionRange, &[u8])
    ensures answer { ReadsBack encode_range ValidRange s.now (record { start = result.0.start; end = result.0.end }) result.1.now }
    ensures rest { EndOf result.1.now s.now }
{
    let (start, next) = read_position(s);
    let (end, next) = read_position(next);
    (PositionRange { start, end }, next)
}

// What is skipped, after a flag or in a list. Nothing is said of what is left where none stands.
pub trait Element {
    ghost Item: { Type 0 };

    ghost encode: { Item → List ℕ };

    ghost Valid: { Item → Type 0 };

    fn skip(s: &[u8]) -> &[u8]
        ensures { Skips encode Valid s.now result.now };
}

// The same in any bytes: what is left is an end of them.
pub trait ElementIn {
    ghost Item: { Type 0 };

    ghost encode: { Item → List ℕ };

    ghost Valid: { Item → Type 0 };

    fn skip_in(s: &[u8]) -> &[u8]
        ensures answer { Skips encode Valid s.now result.now }
        ensures rest { EndOf result.now s.now };
}

// What says more of itself is an element too.
impl<E: ElementIn> Element for E {
    ghost Item = { E.Item };

    ghost encode = { E.encode };

    ghost Valid = { E.Valid };

    fn skip(s: &[u8]) -> &[u8] {
        E::skip_in(s)
    }
}

pub struct Text;

impl ElementIn for Text {
    ghost Item = { List ℕ };

    ghost encode = { encode_text };

    ghost Valid = { Short };

    #[tactic(auto, using(laws::proofs::Among::ends))]
    fn skip_in(s: &[u8]) -> &[u8] {
        let (_, next) = read_text(s);
        next
    }
}

// A text and its range.
pub struct Specifier;

impl ElementIn for Specifier {
    ghost Item = { SpecifierWithRange };

    ghost encode = { encode_specifier };

    ghost Valid = { ValidSpecifier };

    #[tactic(auto, using(laws::proofs::Among::ends), unfolding(report::specs::Encode::encode_specifier))]
    fn skip_in(s: &[u8]) -> &[u8] {
        let (_, next) = read_text(s);
        let (_, next) = read_range(next);
        next
    }
}

// An attribute: its key, and its value if that is a text.
pub struct Attribute;

impl ElementIn for Attribute {
    ghost Item = { KeyValue };

    ghost encode = { encode_key_value };

    ghost Valid = { ValidKeyValue };

    #[tactic(auto, using(laws::proofs::Among::ends), unfolding(report::specs::Encode::encode_key_value))]
    fn skip_in(s: &[u8]) -> &[u8] {
        let (_, next) = read_text(s);
        skip_optional_in::<Text>(next)
    }
}

// A part of a template: its text, if it has one.
pub struct TemplatePart;

impl ElementIn for TemplatePart {
    ghost Item = { DynamicTemplatePart };

    ghost encode = { encode_optional encode_text };

    ghost Valid = { IfThere Short };

    fn skip_in(s: &[u8]) -> &[u8] {
        skip_optional_in::<Text>(s)
    }
}

// Skips an element if it is there.
pub fn skip_optional<E: Element>(s: &[u8]) -> &[u8]
    ensures { Skips (encode_optional E.encode) (IfThere E.Valid) s.now result.now }
{
    let (flag, next) = read_flag(s);
    if flag { E::skip(next) } else { next }
}

// Skips so many elements.
fn skip_elements<E: Element>(s: &[u8], count: usize) -> &[u8]
    ensures { Skips (flat_map E.encode) (λ l. (length l ≡ count) × All E.Valid l) s.now result.now }
{
    let mut next = s;
    for _ in 0..count {
        next = E::skip(next);
    }
    next
}

// Skips a list.
#[tactic(auto, unfolding(report::specs::Encode::encode_list))]
pub fn skip_list<E: Element>(s: &[u8]) -> &[u8]
    ensures { Skips (encode_list E.encode) (λ l. Short l × All E.Valid l) s.now result.now }
{
    let (count, next) = read_number(s);
    skip_elements::<E>(next, count)
}

// Skips an element if it is there, in any bytes.
#[tactic(auto, using(laws::proofs::Among::ends))]
pub fn skip_optional_in<E: ElementIn>(s: &[u8]) -> &[u8]
    ensures answer { Skips (encode_optional E.encode) (IfThere E.Valid) s.now result.now }
    ensures rest { EndOf result.now s.now }
{
    let (flag, next) = read_flag(s);
    if flag { E::skip_in(next) } else { next }
}

// Skips so many elements, in any bytes.
#[tactic(auto, using(laws::proofs::Among::end_whole))]
fn skip_elements_in<E: ElementIn>(s: &[u8], count: usize) -> &[u8]
    ensures answer { Skips (flat_map E.encode) (λ l. (length l ≡ count) × All E.Valid l) s.now result.now }
    ensures rest { EndOf result.now s.now }
{
    let mut next = s;
    for _ in 0..count {
        next = E::skip_in(next);
    }
    next
}

// Skips a list, in any bytes.
#[tactic(auto, using(laws::proofs::Among::ends), unfolding(report::specs::Encode::encode_list))]
pub fn skip_list_in<E: ElementIn>(s: &[u8]) -> &[u8]
    ensures answer { Skips (encode_list E.encode) (λ l. Short l × All E.Valid l) s.now result.now }
    ensures rest { EndOf result.now s.now }
{
    let (count, next) = read_number(s);
    skip_elements_in::<E>(next, count)
}

#[tactic(auto, using(laws::proofs::Among::ends))]
pub fn skip_attributes(s: &[u8]) -> &[u8]
    ensures answer { Skips encode_attributes ValidAttributes s.now result.now }
    ensures rest { EndOf result.now s.now }
{
    let (kind, next) = read_number(s);
    match AttributesKind::from(kind) {
        AttributesKind::Known => skip_list_in::<Attribute>(next),
        AttributesKind::None | AttributesKind::Unknown => next,
    }
}

#[cfg(test)]
mod tests {
    use super::*;
    use std::test::Fail;

    // A text, of which nothing is said where none stands.
    struct Word;

    impl Element for Word {
        ghost Item = { List ℕ };

        ghost encode = { encode_text };

        ghost Valid = { Short };

        fn skip(s: &[u8]) -> &[u8] {
            let (_, next) = read_text(s);
            next
        }
    }

    // Are the last bytes left, so many of them?
    fn left(next: &[u8], many: usize) -> Result<(), &'static str> {
        let last = [b'b', b'c', 9];
        if next.len() == many && last.ends_with(next) {
            Ok(())
        } else {
            Err("other bytes are left")
        }
    }

    #[test]
    fn skips() -> Result<(), Fail> {
        let list = [2, 1, b'a', 2, b'b', b'c', 9];
        left(Word::skip(&list[3..]), 1)?;
        left(Text::skip(&list[3..]), 1)?;
        left(Text::skip_in(&list[3..]), 1)?;
        left(skip_list::<Word>(&list), 1)?;
        left(skip_list::<Text>(&list), 1)?;
        left(skip_list_in::<Text>(&list), 1)?;
        let there = [1, 1, b'a', b'c', 9];
        left(skip_optional::<Word>(&there), 2)?;
        left(skip_optional::<Text>(&there), 2)?;
        left(skip_optional_in::<Text>(&there), 2)?;
        let absent = [0, b'b', b'c', 9];
        left(skip_optional::<Word>(&absent), 3)?;
        left(skip_optional::<Text>(&absent), 3)?;
        left(skip_optional_in::<Text>(&absent), 3)?;
        Ok(())
    }
}
