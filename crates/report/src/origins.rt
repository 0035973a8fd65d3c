// Which rule gave an entry of the report, and where it was read.
ghost use Rattle.std.specs.Prelude.{◌≡◌};
ghost use Rattle.report.specs.Origin.{rule_number, encode_origin};
ghost use Rattle.report.specs.Buffer.{Wrote};

use super::writer::Writer;

// The rules that give references, pragmas and JSDoc imports, with their numbers.
#[derive(Clone, Copy, Debug, PartialEq, Eq)]
pub enum EntryRule {
    Path = 1,
    Types = 2,
    SelfTypes = 3,
    JsxImportSource = 4,
    JsxImportSourceTypes = 5,
    Brace = 6,
    Declaration = 7,
    SourceMap = 8,
    TsTypes = 9,
    DenoTypes = 10,
}

impl From<EntryRule> for u8 {
    ghost from_gives = { λ rule n. n ≡ rule_number rule };

    fn from(rule: EntryRule) -> u8 {
        rule as u8
    }
}

// Writes the rule's number and the place in the source.
#[tactic(auto, using(crate::proofs::Buffers::more_cons, crate::proofs::Buffers::more_append), unfolding(crate::specs::Origin::encode_origin))]
pub fn put_origin(rule: EntryRule, offset: usize, w: &mut Writer)
    ensures { Wrote w.old w.new (encode_origin (record { rule = rule; offset = offset })) }
{
    w.put(u8::from(rule));
    w.put_number(offset);
}
