// The three readings of attributes of src/ast/dep.rs.
ghost use Rattle.std.specs.Prelude.{◌≡◌, Bool, true, false, not, ◌&&◌, List, [], ℕ, ◌≤◌};
ghost use Rattle.std.specs.Fn.{FnReturnsAt};
ghost use Rattle.laws.specs.Codec.{All};
ghost use Rattle.laws.specs.Decoded.{ok};
ghost use Rattle.laws.specs.Ascii.{ascii};
ghost use Rattle.text.specs.Bytes.{same};
ghost use Rattle.sheet.specs.Limits.{property_limit};
ghost use Rattle.sheet.specs.Tree.{Node, Arguments, Properties, Attributes};
ghost use Rattle.sheet.specs.Nodes.{node, properties, arguments, attributes_object};
ghost use Rattle.sheet.specs.Shape.{shape};
ghost use Rattle.report.specs.ModuleInfo.{KeyValue, none};
ghost use Rattle.report.specs.Ascending.{Ascends};
ghost use Rattle.attributes.specs.Attributes.{props, static_pairs, static_attributes, object_attributes, type_attributes, of_object};
ghost use Rattle.attributes.specs.Attributes.{argument_properties, dynamic_attributes, is_attributes_key};
ghost use Rattle.attributes.specs.code.Views.{attributes_as, known_if, object_in, Tests, kept, all_keyed, PairIn, AttributesIn, AttributesInObject, KeysAscend};

use super::pairs::{Pair, Pairs};
use super::props::{Value, read_pair, read_prop, read_value};
use sheet_heads::parts::{read_argument, read_attributes};

#[derive(Clone, Copy)]
pub enum ImportAttributes<'t, 'a> {
    None,
    Unknown,
    Known(&'t Pairs<'a>),
}

// The Object of a declaration, if there is one, read into the table. Values that are no strings are skipped.
#[tactic(auto, using(crate::proofs::Objects::no_attributes), unfolding(crate::specs::Attributes::static_attributes, crate::specs::code::Views::object_in))]
pub fn parse_import_attributes<'t, 'a>(
    source: &[u8],
    object: Option<&'a [u8]>,
    levels: usize,
    pairs: &'t mut Pairs<'a>,
) -> ImportAttributes<'t, 'a>
    ensures value { (a : Attributes) (t u : List ℕ)
        → object_in (attributes_object source.now levels) object.entry u ≡ ok a t
        → attributes_as result ≡ static_attributes a }
    ensures parts { AttributesInObject object.entry (attributes_as result) }
    ensures ascending { KeysAscend (attributes_as result) }
{
    let Some(s) = object else {
        return ImportAttributes::None;
    };
    let Ok(((_, count), next)) = read_attributes(source, s, levels) else {
        return ImportAttributes::Unknown;
    };
    let is_known = |pair: &Pair| pair.value.is_some();
    parse_import_attributes_from_object_lit(
        source,
        next,
        count,
        levels - 1,
        false,
        is_known,
        pairs,
    );
    ImportAttributes::Known(pairs)
}

// So many properties of an Object: the pairs that count are read into the table. Can each key be read? With `stops` it ends at one that cannot.
fn parse_import_attributes_from_object_lit<'a, F: Fn(&Pair<'a>) -> bool>(
    source: &[u8],
    s: &'a [u8],
    count: usize,
    levels: usize,
    stops: bool,
    counts: F,
    pairs: &mut Pairs<'a>,
) -> bool
    requires few { count ≤ property_limit }
    requires callable { F.IsAlwaysCallable counts }
    ensures readable { (ps : Properties) (t : List ℕ)
        → properties (node source.now levels) count s.now ≡ ok ps t
        → result ≡ all_keyed (props ps) }
    ensures unless_stopped { (f : KeyValue → Bool) (ps : Properties) (t : List ℕ)
        → Tests (FnReturnsAt F.Fn counts) f
        → properties (node source.now levels) count s.now ≡ ok ps t
        → (stops && not result) ≡ false
        → pairs.new ≡ kept f [] (props ps) }
    ensures parts { All (PairIn s.now) pairs.new }
    ensures ascending { Ascends pairs.new }
{
    let mut at = s;
    let mut all_keyed = true;
    pairs.clear();
    for _ in 0..count {
        let Ok((prop, next)) = read_prop(source, at, levels) else {
            return false;
        };
        match prop {
            Some(k) => {
                let pair = read_pair(source, k, levels);
                if counts(&pair) {
                    pairs.insert(pair);
                }
            }
            None if stops => return false,
            None => all_keyed = false,
        }
        at = next;
    }
    all_keyed
}

// The Object of an import type, if there is one, read into the table.
#[tactic(auto, using(crate::proofs::Objects::no_attributes), unfolding(crate::specs::Attributes::type_attributes, crate::specs::code::Views::object_in))]
pub fn parse_type_attributes<'t, 'a>(
    source: &[u8],
    object: Option<&'a [u8]>,
    levels: usize,
    pairs: &'t mut Pairs<'a>,
) -> ImportAttributes<'t, 'a>
    ensures value { (a : Attributes) (t u : List ℕ)
        → object_in (attributes_object source.now levels) object.entry u ≡ ok a t
        → attributes_as result ≡ type_attributes a }
    ensures parts { AttributesInObject object.entry (attributes_as result) }
    ensures ascending { KeysAscend (attributes_as result) }
{
    let Some(s) = object else {
        return ImportAttributes::None;
    };
    let Ok(((_, n), next)) = read_attributes(source, s, levels) else {
        return ImportAttributes::Unknown;
    };
    if parse_import_attributes_from_object_lit(source, next, n, levels - 1, true, |_| true, pairs) {
        ImportAttributes::Known(pairs)
    } else {
        ImportAttributes::Unknown
    }
}

// The value of `with` or `assert`, read into the table: is it an Object, and can each key be read?
#[tactic(auto, using(crate::proofs::Kept::all_read))]
fn parse_nested<'a>(source: &[u8], s: &'a [u8], levels: usize, pairs: &mut Pairs<'a>) -> bool
    ensures value { (v : Node) (t : List ℕ)
        → node source.now levels s.now ≡ ok v t
        → known_if result pairs.new ≡ of_object (object_attributes []) (shape v) }
    ensures parts { result ≡ true → All (PairIn s.now) pairs.new }
    ensures ascending { result ≡ true → Ascends pairs.new }
{
    match read_value(source, s, levels) {
        Value::Text(_) | Value::Other => false,
        Value::Object(n, next) => {
            parse_import_attributes_from_object_lit(
                source,
                next,
                n,
                levels - 1,
                true,
                |_| true,
                pairs,
            )
        }
    }
}

#[tactic(auto, using(text::proofs::Words::same_is))]
fn is_with(key: &[u8]) -> bool
    ensures { result ≡ same key.now (ascii "with") }
{
    key == b"with".as_slice()
}

// Is a key `with`, or `assert` with no `with` before it?
#[tactic(auto, using(text::proofs::Words::same_is))]
fn is_attributes_key(key: &[u8], had_with: bool) -> bool
    ensures { result ≡ is_attributes_key had_with key.now }
{
    is_with(key) || key == b"assert".as_slice() && !had_with
}

// So many properties of the second argument of a dynamic import.
fn parse_argument_properties<'t, 'a>(
    source: &[u8],
    s: &'a [u8],
    count: usize,
    levels: usize,
    pairs: &'t mut Pairs<'a>,
) -> ImportAttributes<'t, 'a>
    ensures value { (ps : Properties) (t : List ℕ)
        → properties (node source.now levels) count s.now ≡ ok ps t
        → attributes_as result ≡ argument_properties false none (props ps) }
    ensures parts { AttributesIn s.now (attributes_as result) }
    ensures ascending { KeysAscend (attributes_as result) }
{
    let mut at = s;
    let mut had_attributes_key = false;
    let mut had_with = false;
    for _ in 0..count {
        let Ok((Some(k), next)) = read_prop(source, at, levels) else {
            return ImportAttributes::Unknown;
        };
        if is_attributes_key(k.key, had_with) {
            had_attributes_key = true;
            had_with = is_with(k.key);
            if !parse_nested(source, k.value, levels, pairs) {
                return ImportAttributes::Unknown;
            }
        }
        at = next;
    }
    if had_attributes_key {
        ImportAttributes::Known(pairs)
    } else {
        ImportAttributes::None
    }
}

// From the arguments behind the first of a call, so many of them, read into the table.
#[tactic(auto, using(crate::proofs::Objects::first_argument, sheet_heads::proofs::FirstArgument::no_first, sheet_heads::proofs::FirstArgument::no_arguments_lem), unfolding(crate::specs::Attributes::dynamic_attributes))]
pub fn parse_dynamic_import_attributes<'t, 'a>(
    source: &[u8],
    s: &'a [u8],
    count: usize,
    levels: usize,
    pairs: &'t mut Pairs<'a>,
) -> ImportAttributes<'t, 'a>
    ensures value { (xs : Arguments) (t : List ℕ)
        → arguments (node source.now levels) source.now count s.now ≡ ok xs t
        → attributes_as result ≡ dynamic_attributes xs }
    ensures parts { AttributesIn s.now (attributes_as result) }
    ensures ascending { KeysAscend (attributes_as result) }
{
    if count == 0 {
        return ImportAttributes::None;
    }
    let Ok(((spread, _), value)) = read_argument(source, s) else {
        return ImportAttributes::Unknown;
    };
    if spread {
        return ImportAttributes::Unknown;
    }
    match read_value(source, value, levels) {
        Value::Text(_) | Value::Other => ImportAttributes::Unknown,
        Value::Object(n, next) => { parse_argument_properties(source, next, n, levels - 1, pairs) }
    }
}

#[cfg(test)]
mod tests {
    use super::*;
    use std::test::Fail;

    fn are_a_and_b(attributes: ImportAttributes) -> Result<(), &'static str> {
        match attributes {
            ImportAttributes::Known(pairs) if pairs.len() == 2 => {
                if pairs.at(0).key == b"a".as_slice() && pairs.at(1).key == b"b".as_slice() {
                    Ok(())
                } else {
                    Err("the keys are others")
                }
            }
            _ => Err("there are not two pairs"),
        }
    }

    // The source has two marks, where each String stands.
    #[test]
    fn keys_ascend() -> Result<(), Fail> {
        let source = b"''";
        // {b: 'x', a: 'y'}
        let object = [
            5, 0, 2, 2, 2, 2, 1, b'b', 1, 0, 2, 1, b'x', 2, 2, 1, b'a', 1, 0, 2, 1, b'y',
        ];
        // {with: {b: 'x', a: 'y'}}
        let second = [
            0, 0, 2, 5, 0, 2, 1, 2, 2, 4, b'w', b'i', b't', b'h', 5, 0, 2, 2, 2, 2, 1, b'b', 1, 0,
            2, 1, b'x', 2, 2, 1, b'a', 1, 0, 2, 1, b'y',
        ];
        let mut pairs = Pairs::new();
        are_a_and_b(parse_import_attributes(source, Some(&object), 8, &mut pairs))?;
        are_a_and_b(parse_type_attributes(source, Some(&object), 8, &mut pairs))?;
        are_a_and_b(parse_dynamic_import_attributes(source, &second, 1, 8, &mut pairs))?;
        Ok(())
    }
}
