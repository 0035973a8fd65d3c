// The argument of a dynamic import, and its writer.
ghost use Rattle.std.specs.Prelude.{◌≡◌, List, [], ℕ, ◌+◌};
ghost use Rattle.laws.specs.Decoded.{ok};
ghost use Rattle.laws.specs.code.Told.{Leaving};
ghost use Rattle.sheet.specs.Tree.{Node, Pieces};
ghost use Rattle.sheet.specs.Nodes.{node, many, piece};
ghost use Rattle.sheet.specs.Shape.{shape};
ghost use Rattle.report.specs.ModuleInfo as info;
ghost use Rattle.report.specs.Encode.{encode_argument};
ghost use Rattle.report.specs.Buffer.{Wrote, Keeps};
ghost use Rattle.arguments.specs.Argument.{of_pieces, argument_of, one_piece, single_text, replaced_in};
ghost use Rattle.arguments.specs.code.Views.{Stands, ArgumentWithin};

use super::bin::{put_bin, visit_bin};
use super::expression::{Expression, read_expression};
use super::template::{count_parts, put_parts};
use super::template_pieces::TemplatePieces;
use report::names::ArgumentKind;
use report::writer::Writer;
use sheet_heads::parts::read_piece;

// Bytes of the sheet stand for the Rust's `Vec` of parts.
#[derive(Clone, Copy)]
pub enum DynamicArgument<'a> {
    Expr,
    String(&'a [u8]),
    // The number of parts, and the pieces.
    Template(usize, TemplatePieces<'a>),
    // The number of parts, and the bytes that begin with the node.
    Chain(usize, &'a [u8]),
}

// A template by its holes: one of one piece is its text.
#[tactic(auto, using(crate::proofs::Pieces::of_parts, sheet_heads::proofs::Many::many_refused))]
fn parse_template(pieces: TemplatePieces<'_>) -> DynamicArgument<'_>
    ensures value { (source : List ℕ) (levels : ℕ) (ps : Pieces) (u : List ℕ)
        → many [] piece (pieces.entry.holes + 1) pieces.entry.bytes.now ≡ ok ps u
        → Stands source levels result (of_pieces ps) (replaced_in (one_piece ps)) }
    ensures parts { ArgumentWithin pieces.entry.bytes.now result }
{
    if pieces.holes == 0 {
        return match read_piece(pieces.bytes) {
            Ok((Some(text), _)) => DynamicArgument::String(text),
            Ok((None, _)) => DynamicArgument::Expr,
            Err(_) => DynamicArgument::Expr,
        };
    }
    DynamicArgument::Template(count_parts(pieces), pieces)
}

// The argument whose node is at the front of some bytes, with so many levels left, its own among them.
pub fn parse_argument<'a>(source: &[u8], s: &'a [u8], levels: usize) -> DynamicArgument<'a>
    ensures value { (n : Node) (t : List ℕ)
        → node source.now levels s.now ≡ ok n t
        → Stands source.now levels result (argument_of n) (replaced_in (single_text (shape n))) }
    ensures parts { ArgumentWithin s.now result }
{
    match read_expression(source, s, levels) {
        Expression::String { text, .. } => DynamicArgument::String(text),
        Expression::Template(pieces) => parse_template(pieces),
        Expression::Plus(_) => match visit_bin(source, s, levels) {
            Some((parts, _)) => DynamicArgument::Chain(parts, s),
            None => DynamicArgument::Expr,
        },
        Expression::Other => DynamicArgument::Expr,
    }
}

// Writes an argument, and counts the surrogates that are replaced in its single text: parts are not counted. Where the bytes hold no such argument,
// the buffer is left free.
pub fn put_argument(source: &[u8], levels: usize, a: DynamicArgument, w: &mut Writer) -> usize
    ensures { Leaving
        ((v : info.DynamicArgument) (replacements : ℕ)
        → Stands source.now levels a.entry v replacements
        → (Wrote w.old w.new (encode_argument v)) × (result ≡ replacements))
        (Keeps w.old w.new) }
{
    match a {
        DynamicArgument::Expr => {
            w.put(ArgumentKind::Expr as u8);
            0
        }
        DynamicArgument::String(text) => {
            w.put(ArgumentKind::String as u8);
            w.put_lossy_text(text)
        }
        DynamicArgument::Template(parts, pieces) => {
            w.put(ArgumentKind::Template as u8);
            w.put_number(parts);
            put_parts(pieces, w);
            0
        }
        DynamicArgument::Chain(parts, s) => {
            w.put(ArgumentKind::Template as u8);
            w.put_number(parts);
            put_bin(source, s, levels, w);
            0
        }
    }
}
