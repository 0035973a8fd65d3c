// What an expression is to the argument that it stands in.
ghost use Rattle.std.specs.Prelude.{◌≡◌, List, ℕ, ◌-◌};
ghost use Rattle.laws.specs.Decoded.{ok};
ghost use Rattle.laws.specs.code.Told.{Bounded};
ghost use Rattle.sheet.specs.Tree.{Node};
ghost use Rattle.sheet.specs.Nodes.{node};
ghost use Rattle.arguments.specs.code.Views.{ExpressionIs, ExpressionWithin};

use super::template_pieces::TemplatePieces;
use sheet_heads::node::{Head, read_head};

// A String with its text, a Template with its pieces, or a Binary that is a plus, with the bytes behind the head.
#[derive(Clone, Copy)]
pub enum Expression<'a> {
    String { text: &'a [u8], next: &'a [u8] },
    Template(TemplatePieces<'a>),
    Plus(&'a [u8]),
    Other,
}

// The expression at the front of some bytes, with so many levels left, its own among them.
#[tactic(auto, using(sheet_heads::proofs::ByHead::no_head, crate::proofs::Expressions::reads))]
pub fn read_expression<'a>(source: &[u8], s: &'a [u8], levels: usize) -> Expression<'a>
    ensures { Bounded
        ((n : Node) (t : List ℕ)
        → node source.now levels s.now ≡ ok n t
        → ExpressionIs (node source.now (levels - 1)) result n t)
        (ExpressionWithin s.now levels result) }
{
    let Ok(((_, head), next)) = read_head(source, s, levels) else {
        return Expression::Other;
    };
    match head {
        Head::String(text) => Expression::String { text, next },
        Head::Template(holes) => Expression::Template(TemplatePieces { holes, bytes: next }),
        Head::Binary(plus) => {
            if plus {
                return Expression::Plus(next);
            }
            Expression::Other
        }
        _ => Expression::Other,
    }
}
