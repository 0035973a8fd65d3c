// The pieces of a template.
ghost use Rattle.std.specs.Prelude.{◌≡◌, List, [], ℕ, ◌+◌, ◌≤◌, length};
ghost use Rattle.laws.specs.Decoded.{ok};
ghost use Rattle.laws.specs.code.Told.{Bounded, Leaving};
ghost use Rattle.sheet.specs.Tree.{Pieces};
ghost use Rattle.sheet.specs.Nodes.{many, piece};
ghost use Rattle.report.specs.Buffer.{Wrote, Keeps};
ghost use Rattle.arguments.specs.Argument.{piece_parts, template_parts};
ghost use Rattle.arguments.specs.code.Views.{encode_parts, piece_in};

use super::part::{put_expr, put_string};
use super::template_pieces::TemplatePieces;
use report::writer::Writer;
use sheet_heads::parts::read_piece;

// How many parts a piece gives that is cooked or not: one if it has text.
fn count_piece(piece: Option<&[u8]>) -> usize
    ensures { Bounded (length (piece_parts (piece_in piece.entry)) ≡ result) (result ≤ 1) }
{
    piece.map_or(0, |text| usize::from(!text.is_empty()))
}

// How many parts the pieces and the holes between them give.
#[tactic(auto, using(sheet_heads::proofs::Many::many_refused))]
pub fn count_parts(pieces: TemplatePieces) -> usize
    ensures { (ps : Pieces) (u : List ℕ)
        → many [] piece (pieces.entry.holes + 1) pieces.entry.bytes.now ≡ ok ps u
        → length (template_parts ps) ≡ result }
{
    let mut s = pieces.bytes;
    let mut parts: usize = 0;
    for k in 0..pieces.holes + 1 {
        let Ok((piece, next)) = read_piece(s) else {
            return 0;
        };
        parts += count_piece(piece) + usize::from(k < pieces.holes);
        s = next;
    }
    parts
}

// Writes the part of a piece that is cooked or not, which has one if it has text.
#[tactic(auto, using(report::proofs::Buffers::more_nil, crate::proofs::Chains::encode_one, crate::proofs::Pieces::text_part), unfolding(laws::proofs::Prelude::flat_map))]
fn put_piece(piece: Option<&[u8]>, w: &mut Writer)
    ensures { Wrote w.old w.new (encode_parts (piece_parts (piece_in piece.entry))) }
{
    if let Some(text) = piece {
        if !text.is_empty() {
            put_string(text, w);
        }
    }
}

// Writes the parts of the pieces and of the holes between them. Where the bytes are no such pieces, the buffer is left free.
#[tactic(auto, using(sheet_heads::proofs::Many::many_refused))]
pub fn put_parts(pieces: TemplatePieces, w: &mut Writer)
    ensures { Leaving
        ((ps : Pieces) (u : List ℕ)
        → many [] piece (pieces.entry.holes + 1) pieces.entry.bytes.now ≡ ok ps u
        → Wrote w.old w.new (encode_parts (template_parts ps)))
        (Keeps w.old w.new) }
{
    let mut s = pieces.bytes;
    for k in 0..pieces.holes + 1 {
        let Ok((piece, next)) = read_piece(s) else {
            return;
        };
        put_piece(piece, w);
        if k < pieces.holes {
            put_expr(w);
        }
        s = next;
    }
}
