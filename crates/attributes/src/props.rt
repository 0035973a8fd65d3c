// The properties of an Object as attributes are read from them.
ghost use Rattle.std.specs.Prelude.{◌≡◌, List, ℕ, ◌-◌};
ghost use Rattle.laws.specs.Decoded.{ok};
ghost use Rattle.laws.specs.code.Told.{Bounded};
ghost use Rattle.sheet.specs.Tree.{Node};
ghost use Rattle.sheet.specs.Nodes.{node};
ghost use Rattle.sheet.specs.Shape.{shape};
ghost use Rattle.attributes.specs.Attributes.{value_of};
ghost use Rattle.attributes.specs.code.Rows.{pair_as};
ghost use Rattle.attributes.specs.code.Views.{ValueIs, ValueWithin, KnownIn, prop_in, PropIs, PropIn};

use super::pairs::Pair;
use sheet_heads::node::{Head, read_head};
use sheet_heads::parts::{Property, read_property};
use sheet_nodes::check::check_property;
use text::lossy::is_exact;
use wire::ReadResult;

// What a node is to an attribute: a text; an Object, with the number of its properties and what is left at them; or anything else.
#[derive(Clone, Copy)]
pub enum Value<'a> {
    Text(&'a [u8]),
    Object(usize, &'a [u8]),
    Other,
}

// A property with a key that can be read: the key, and what is left at the value.
#[derive(Clone, Copy)]
pub struct Keyed<'a> {
    pub key: &'a [u8],
    pub value: &'a [u8],
}

// The node that stands first, with so many levels left, its own among them.
#[tactic(auto, using(sheet_heads::proofs::ByHead::no_head, crate::proofs::Shapes::other_is))]
pub fn read_value<'a>(source: &[u8], s: &'a [u8], levels: usize) -> Value<'a>
    ensures { Bounded
        ((v : Node) (t : List ℕ) → node source.now levels s.now ≡ ok v t → ValueIs source.now (levels - 1) result (shape v))
        (ValueWithin s.now levels result) }
{
    let Ok(((_, head), next)) = read_head(source, s, levels) else {
        return Value::Other;
    };
    match head {
        Head::String(text) => Value::Text(text),
        Head::Object(n) => Value::Object(n, next),
        _ => Value::Other,
    }
}

// The pair of a key and its value.
pub fn read_pair<'a>(source: &[u8], k: Keyed<'a>, levels: usize) -> Pair<'a>
    ensures key { result.key ≡ k.entry.key }
    ensures known { KnownIn k.entry.value.now (pair_as result).value }
    ensures value { (v : Node) (t : List ℕ)
        → node source.now levels k.entry.value.now ≡ ok v t
        → pair_as result ≡ record { key = k.entry.key.now; value = value_of (shape v) } }
{
    let value = match read_value(source, k.value, levels) {
        Value::Text(text) => is_exact(text).then_some(text),
        Value::Object(_, _) | Value::Other => None,
    };
    Pair { key: k.key, value }
}

// A property from its head, with what is left at its value: none without a key that can be read.
fn prop_of<'a>(p: Property<'a>, value: &'a [u8]) -> Option<Keyed<'a>>
    ensures { result ≡ prop_in p.entry value.entry }
{
    match p {
        Property::Spread | Property::Other | Property::ChildKey => None,
        Property::StringKey(key) => is_exact(key).then_some(Keyed { key, value }),
        Property::NameKey(key) => Some(Keyed { key, value }),
    }
}

// The property that stands first, with so many levels left for its nodes.
#[tactic(auto, using(laws::proofs::Decoding::on_ok_ok, sheet_heads::proofs::ByHead::property_by_head, crate::proofs::Seen::prop_is))]
pub fn read_prop<'a>(source: &[u8], s: &'a [u8], levels: usize) -> ReadResult<'a, Option<Keyed<'a>>>
    ensures value { PropIs (node source.now levels) s.now result }
    ensures parts { PropIn s.now result }
{
    let (p, value) = read_property(s)?;
    let (_, next) = check_property(source, s, levels)?;
    Ok((prop_of(p, value), next))
}
