// A chain of pluses whose leftmost side is a String.
ghost use Rattle.std.specs.Prelude.{◌≡◌, List, ℕ};
ghost use Rattle.std.specs.Prelude.{Some};
ghost use Rattle.laws.specs.Decoded.{ok};
ghost use Rattle.laws.specs.code.Told.{Bounded, Leaving};
ghost use Rattle.wire.specs.Optional.{encode_optional};
ghost use Rattle.wire.specs.Text.{encode_text};
ghost use Rattle.sheet.specs.Tree.{Node};
ghost use Rattle.sheet.specs.Nodes.{node};
ghost use Rattle.sheet.specs.Shape.{shape};
ghost use Rattle.report.specs.ModuleInfo.{DynamicTemplatePart};
ghost use Rattle.report.specs.Buffer.{Wrote, Keeps};
ghost use Rattle.arguments.specs.Argument.{operand, chain};
ghost use Rattle.arguments.specs.code.Views.{encode_parts, parts_as, counted, PartsWithin};

use super::expression::{Expression, read_expression};
use super::part::{put_expr, put_string};
use report::writer::Writer;
use sheet_nodes::check::check_node;

// How many parts the chain at the front of some bytes has, with what is left behind it, or none if it is no chain; so many levels are left, its own
// among them.
pub fn visit_bin<'a>(source: &[u8], s: &'a [u8], levels: usize) -> Option<(usize, &'a [u8])>
    ensures { Bounded
        ((n : Node) (t : List ℕ)
        → node source.now levels s.now ≡ ok n t
        → parts_as result ≡ counted (chain n) t)
        (PartsWithin levels result) }
{
    match read_expression(source, s, levels) {
        Expression::String { next, .. } => Some((1, next)),
        Expression::Plus(next) => {
            let (n, next) = visit_bin(source, next, levels - 1)?;
            let (_, next) = check_node(source, next, levels - 1).ok()?;
            Some((n + 1, next))
        }
        Expression::Template(_) | Expression::Other => None,
    }
}

// Writes the part of the right side of a plus.
fn put_operand(source: &[u8], s: &[u8], levels: usize, w: &mut Writer)
    ensures { Leaving
        ((n : Node) (t : List ℕ)
        → node source.now levels s.now ≡ ok n t
        → Wrote w.old w.new (encode_optional encode_text (operand (shape n))))
        (Keeps w.old w.new) }
{
    match read_expression(source, s, levels) {
        Expression::String { text, .. } => put_string(text, w),
        Expression::Template(_) | Expression::Plus(_) | Expression::Other => put_expr(w),
    }
}

// Writes the parts of a chain: the left side, then the right. Answers what is left behind it. Where the bytes are no chain, the buffer is left free.
pub fn put_bin<'a>(source: &[u8], s: &'a [u8], levels: usize, w: &mut Writer) -> &'a [u8]
    ensures { Leaving
        ((n : Node) (t : List ℕ) (l : List DynamicTemplatePart)
        → node source.now levels s.now ≡ ok n t
        → chain n ≡ Some l
        → (Wrote w.old w.new (encode_parts l)) × (result.now ≡ t))
        (Keeps w.old w.new) }
{
    match read_expression(source, s, levels) {
        Expression::String { text, next } => {
            put_string(text, w);
            next
        }
        Expression::Plus(next) => {
            let next = put_bin(source, next, levels - 1, w);
            put_operand(source, next, levels - 1, w);
            match check_node(source, next, levels - 1) {
                Ok((_, next)) => next,
                Err(_) => next,
            }
        }
        Expression::Template(_) | Expression::Other => s,
    }
}
