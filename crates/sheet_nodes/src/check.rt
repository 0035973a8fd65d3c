// The check of a node, by recursion in which the levels left fall.
ghost use Rattle.std.specs.Prelude.{◌≡◌, false, length};
ghost use Rattle.laws.specs.Decoded.{on_ok};
ghost use Rattle.laws.specs.code.Told.{Bounded, Told};
ghost use Rattle.wire.specs.code.Views.{read_as};
ghost use Rattle.sheet.specs.Nodes.{node, nodes, arguments, property_item, properties, call_rest, type_rest, attributes_object};
ghost use Rattle.sheet.specs.declared.fields.Span.{Span};
ghost use Rattle.sheet_heads.specs.code.Rest.{behind, rest};
ghost use Rattle.sheet_heads.specs.code.Views.{head_of, HeadWithin};
ghost use Rattle.sheet_nodes.specs.code.Tallies.{node_tally, tally_all, tally_in, tally_with, gain, tally_of, tally_call, tally_typed};
ghost use Rattle.sheet_nodes.specs.code.Answers.{with_own, PastChecked, PastRest, PastTally};

use super::tally::{
    ArgumentTally, NodeTally, Tally, add_argument, called, holding, import_callee, leaf,
};
use sheet_heads::node::{ExportHead, Head, ImportHead, read_head};
use sheet_heads::parts::{nodes_of, read_argument, read_attributes, read_pieces, read_property};
use sheet_heads::texts::{is_augmentation, is_require};
use wire::{Cursor, ReadResult};

// A node, with so many levels left, its own among them.
#[cycle(check)]
#[tactic(auto, using(sheet_heads::proofs::ByHead::node_by_head))]
pub fn check_node<'a>(source: &[u8], s: &'a [u8], levels: usize) -> ReadResult<'a, NodeTally>
    ensures { Told read_as
        (on_ok node_tally (node source.now levels s.now))
        (PastChecked (length s.now)) result }
{
    let ((_, head), next) = read_head(source, s, levels)?;
    check_rest(source, next, levels - 1, head)
}

// What follows a head, with so many levels left below its node: an arm for what each kind of node holds.
#[cycle(check)]
#[tactic(auto, using(crate::proofs::Arms::binary_holds))]
fn check_rest<'a>(
    source: &[u8],
    s: &'a [u8],
    levels: usize,
    head: Head<'a>,
) -> ReadResult<'a, NodeTally>
    requires { HeadWithin head }
    ensures { Bounded
        ((sp : Span)
        → read_as result
        ≡ on_ok node_tally (rest source.now levels (sp, head_of head.entry) s.now))
        (PastRest (length s.now) result) }
{
    match head {
        Head::String(_) | Head::NamedExport(_) | Head::ImportEquals => Ok((leaf(false, false), s)),
        Head::Name(x) => Ok((leaf(false, is_require(x)), s)),
        Head::ImportRequire(_) => Ok((leaf(true, false), s)),
        Head::Other(n) | Head::Module(None, n) => check_holding(source, s, false, n, levels),
        Head::Template(n) => {
            let (uncooked, next) = read_pieces(s, n + 1)?;
            let (t, next) = check_nodes(source, next, n, levels)?;
            Ok((holding(false, uncooked, t), next))
        }
        Head::Binary(_) => check_holding(source, s, false, 2, levels),
        Head::Object(n) => {
            let (t, next) = check_properties(source, s, n, levels)?;
            Ok((holding(false, false, t), next))
        }
        Head::ImportCall(_) => {
            let (p, next) = check_call(source, s, levels)?;
            Ok((called(import_callee(), p), next))
        }
        Head::Call => {
            let (callee, next) = check_node(source, s, levels)?;
            let (p, next) = check_call(source, next, levels)?;
            Ok((called(callee, p), next))
        }
        Head::Import(ImportHead { has_object, .. })
        | Head::ExportFrom(ExportHead { has_object, .. })
        | Head::ExportAll(ExportHead { has_object, .. }) => {
            let (_, next) = check_attributes(source, s, has_object, levels)?;
            Ok((leaf(true, false), next))
        }
        Head::ImportType(_, n) => {
            let (t, next) = check_typed(source, s, n, levels)?;
            Ok((holding(true, false, t), next))
        }
        Head::Module(Some(x), n) => check_holding(source, s, is_augmentation(x.text), n, levels),
    }
}

// A node that holds so many nodes: has it an entry of its own?
#[cycle(check)]
#[inline(always)]
fn check_holding<'a>(
    source: &[u8],
    s: &'a [u8],
    own: bool,
    count: usize,
    levels: usize,
) -> ReadResult<'a, NodeTally>
    ensures { Told read_as
        (on_ok (with_own own false) (on_ok tally_all (nodes (node source.now levels) count s.now)))
        (PastRest (length s.now)) result }
{
    let (t, next) = check_nodes(source, s, count, levels)?;
    Ok((holding(own, false, t), next))
}

// So many nodes, one after the other. This loop and those over arguments and properties as one function would take closures, which in a cycle of
// calls state their own contracts: that is longer than the loops.
#[cycle(check)]
#[tactic(auto, using(crate::proofs::Loops::nodes_looped))]
pub fn check_nodes<'a>(
    source: &[u8],
    s: &'a [u8],
    count: usize,
    levels: usize,
) -> ReadResult<'a, Tally>
    ensures { Told read_as
        (on_ok tally_all (nodes (node source.now levels) count s.now))
        (PastTally (length s.now)) result }
{
    let mut next = s;
    let mut total = Tally::default();
    for _ in 0..count {
        let (j, after) = check_node(source, next, levels)?;
        total = total + j;
        next = after;
    }
    Ok((total, next))
}

// So many arguments.
#[cycle(check)]
#[tactic(auto, using(crate::proofs::Loops::arguments_looped))]
fn check_arguments<'a>(
    source: &[u8],
    s: &'a [u8],
    count: usize,
    levels: usize,
) -> ReadResult<'a, ArgumentTally>
    ensures { Told read_as
        (on_ok tally_of (arguments (node source.now levels) source.now count s.now))
        (PastTally (length s.now)) result }
{
    let mut next = s;
    let mut total = ArgumentTally::default();
    for _ in 0..count {
        let (_, after) = read_argument(source, next)?;
        let (j, after) = check_node(source, after, levels)?;
        total = add_argument(total, j);
        next = after;
    }
    Ok((total, next))
}

// What follows the callee of a call: arguments and further children.
#[cycle(check)]
#[tactic(auto, using(laws::proofs::Decoding::refusals_kept, crate::proofs::Arms::arguments_nodes), unfolding(sheet::specs::Nodes::call_rest))]
fn check_call<'a>(source: &[u8], s: &'a [u8], levels: usize) -> ReadResult<'a, ArgumentTally>
    ensures { Told read_as
        (on_ok tally_call (call_rest (node source.now levels) source.now s.now))
        (PastTally (length s.now)) result }
{
    let (n, next) = s.number()?;
    let (p, next) = check_arguments(source, next, n, levels)?;
    let (m, next) = next.number()?;
    let (t, next) = check_nodes(source, next, m, levels)?;
    Ok((p + t, next))
}

// A property: its key, if that is a node, and its value.
#[cycle(check)]
#[tactic(auto, using(sheet_heads::proofs::ByHead::property_by_head, crate::proofs::Arms::property_holds))]
pub fn check_property<'a>(source: &[u8], s: &'a [u8], levels: usize) -> ReadResult<'a, Tally>
    ensures { Told read_as
        (on_ok gain (property_item (node source.now levels) s.now))
        (PastTally (length s.now)) result }
{
    let (p, next) = read_property(s)?;
    check_nodes(source, next, nodes_of(p), levels)
}

// So many properties.
#[cycle(check)]
#[tactic(auto, using(crate::proofs::Loops::properties_looped))]
fn check_properties<'a>(
    source: &[u8],
    s: &'a [u8],
    count: usize,
    levels: usize,
) -> ReadResult<'a, Tally>
    ensures { Told read_as
        (on_ok tally_in (properties (node source.now levels) count s.now))
        (PastTally (length s.now)) result }
{
    let mut next = s;
    let mut total = Tally::default();
    for _ in 0..count {
        let (t, after) = check_property(source, next, levels)?;
        total = total + t;
        next = after;
    }
    Ok((total, next))
}

// An Object that holds attributes, if there is one.
#[cycle(check)]
#[tactic(auto, using(crate::proofs::Arms::object_behind, crate::proofs::Arms::object_holds))]
pub fn check_attributes<'a>(
    source: &[u8],
    s: &'a [u8],
    has_object: bool,
    levels: usize,
) -> ReadResult<'a, Tally>
    ensures { Told read_as
        (on_ok tally_with (behind has_object (attributes_object source.now levels) s.now))
        (PastTally (length s.now)) result }
{
    if has_object {
        let ((_, n), next) = read_attributes(source, s, levels)?;
        return check_properties(source, next, n, levels - 1);
    }
    Ok((Tally::default(), s))
}

// What follows the head of an import type: children and attributes.
#[cycle(check)]
#[tactic(auto, using(laws::proofs::Decoding::refusals_kept, crate::proofs::Arms::nodes_attributes), unfolding(sheet::specs::Nodes::type_rest, sheet::specs::Nodes::attributes))]
fn check_typed<'a>(source: &[u8], s: &'a [u8], count: usize, levels: usize) -> ReadResult<'a, Tally>
    ensures { Told read_as
        (on_ok tally_typed (type_rest (node source.now levels) (attributes_object source.now levels) count
        s.now))
        (PastTally (length s.now)) result }
{
    let (t, next) = check_nodes(source, s, count, levels)?;
    let (has_object, next) = next.flag()?;
    let (u, next) = check_attributes(source, next, has_object, levels)?;
    Ok((t + u, next))
}
