// The attributes of an import in the report.
ghost use mathlib.Core.List.{flat_map};
ghost use Rattle.report.specs.Encode.{encode_key_value, encode_attributes};
ghost use Rattle.report.specs.Buffer.{Wrote};
ghost use Rattle.attributes.specs.code.Rows.{pair_as};
ghost use Rattle.attributes.specs.code.Views.{attributes_as};

use super::pairs::{Pair, Pairs};
use super::readings::ImportAttributes;
use report::names::AttributesKind;
use report::writer::Writer;

// Writes a pair.
#[tactic(auto, using(report::proofs::Buffers::parts), unfolding(report::specs::Encode::encode_key_value, wire::specs::Optional::encode_optional))]
fn put_pair(pair: Pair, w: &mut Writer)
    ensures { Wrote w.old w.new (encode_key_value (pair_as pair.entry)) }
{
    w.put_text(pair.key);
    w.put_flag(pair.value.is_some());
    if let Some(value) = pair.value {
        w.put_text(value);
    }
}

// Writes the pairs of a table.
#[tactic(auto, using(report::proofs::Buffers::wrote_none, crate::proofs::PairRows::one_more), unfolding(laws::proofs::Prelude::flat_map))]
fn put_pairs(pairs: &Pairs, w: &mut Writer)
    ensures { Wrote w.old w.new (flat_map encode_key_value pairs.now) }
{
    let rows = pairs.as_slice();
    for pair in rows {
        put_pair(*pair, w);
    }
}

// Writes the attributes of an import.
#[tactic(auto, using(report::proofs::Buffers::parts), unfolding(report::specs::Encode::encode_attributes, report::specs::Encode::encode_list))]
pub fn put_attributes(attributes: ImportAttributes, w: &mut Writer)
    ensures { Wrote w.old w.new (encode_attributes (attributes_as attributes.entry)) }
{
    match attributes {
        ImportAttributes::None => w.put(AttributesKind::None as u8),
        ImportAttributes::Unknown => w.put(AttributesKind::Unknown as u8),
        ImportAttributes::Known(pairs) => {
            w.put(AttributesKind::Known as u8);
            w.put_number(pairs.len());
            put_pairs(pairs, w);
        }
    }
}
