// The references of the head group.
ghost use Rattle.std.specs.Prelude.{◌≡◌, length, option_map};
ghost use mathlib.Core.List.{flat_map};
ghost use Rattle.analysis.specs.Row.{find};
ghost use Rattle.analysis.specs.Patterns.{resolution_mode_row};
ghost use Rattle.report.specs.Encode.{encode_list, encode_reference};
ghost use Rattle.report.specs.Buffer.{Wrote};
ghost use Rattle.pragmas.specs.Pragmas.{mode_by, reference, references_in};
ghost use Rattle.pragmas.specs.code.Views.{reference_as, ReferenceIn, encode_any};

use super::taken::Taken;
use analysis::mode::{TypeScriptTypesResolutionMode, from_str, mode_number};
use analysis::{
    find_path_reference, find_resolution_mode, find_types_reference,
    is_comment_triple_slash_reference, specifier,
};
use report::names::ReferenceKind;
use report::writer::Writer;
use sheet::commented::{Comments, PlacedComment};
use sheet::names::is_block;

// A reference of a comment: what is captured there, and of a types reference the mode.
#[derive(Clone, Copy)]
pub enum Reference<'a> {
    Path(Taken<'a>),
    Types(Taken<'a>, Option<TypeScriptTypesResolutionMode>),
}

// The mode that a comment names for a types reference.
fn resolution_mode(body: &[u8]) -> Option<TypeScriptTypesResolutionMode>
    ensures { result ≡ mode_by body.now (find resolution_mode_row body.now) }
{
    let found = find_resolution_mode(body)?;
    from_str(specifier(body, found))
}

// The reference of a comment.
#[tactic(auto, unfolding(crate::specs::Readings::read_by, crate::specs::Pragmas::mode_in, crate::specs::Pragmas::reference))]
pub fn read_reference<'a>(c: &PlacedComment<'a>) -> Option<Reference<'a>>
    ensures value { option_map reference_as result ≡ reference c.now.source c.now.comment }
    ensures inside { ReferenceIn c.now.source c.now.comment result }
{
    if is_block(c.comment().kind) {
        return None;
    }
    let text = c.body();
    if is_comment_triple_slash_reference(text) {
        if let Some(found) = find_types_reference(text) {
            return Some(Reference::Types(Taken::new(c, found), resolution_mode(text)));
        }
        let found = find_path_reference(text)?;
        return Some(Reference::Path(Taken::new(c, found)));
    }
    None
}

// Writes the reference of a comment, if it has one.
#[tactic(auto, using(report::proofs::Buffers::wrote_none, report::proofs::Buffers::parts), unfolding(report::specs::Encode::encode_reference))]
fn put_reference(reference: Option<Reference>, w: &mut Writer)
    ensures { Wrote w.old w.new (encode_any encode_reference (option_map reference_as reference.entry)) }
{
    match reference {
        Some(Reference::Path(taken)) => {
            w.put(ReferenceKind::Path as u8);
            taken.put(w);
        }
        Some(Reference::Types(taken, mode)) => {
            w.put(ReferenceKind::Types as u8);
            taken.put(w);
            w.put(mode_number(mode));
        }
        None => {}
    }
}

// How many references the comments give.
fn count_references(comments: &Comments) -> usize
    ensures { result ≡ length (references_in comments.now.source comments.now.comments) }
{
    comments
        .iter()
        .filter(|c| read_reference(c).is_some())
        .count()
}

// Writes each of them.
#[tactic(auto, using(crate::proofs::Turns::each_placed), unfolding(crate::specs::Readings::all_of, crate::specs::Pragmas::references_in))]
fn put_references(comments: &Comments, w: &mut Writer)
    ensures { Wrote w.old w.new
        (flat_map encode_reference (references_in comments.now.source comments.now.comments)) }
{
    for c in comments.iter() {
        put_reference(read_reference(&c), w);
    }
}

// The references of the comments: how many, and then each.
#[tactic(auto, using(report::proofs::Buffers::more_append), unfolding(report::specs::Encode::encode_list))]
pub fn analyze_ts_references(comments: &Comments, w: &mut Writer)
    ensures { Wrote w.old w.new
        (encode_list encode_reference (references_in comments.now.source comments.now.comments)) }
{
    w.put_number(count_references(comments));
    put_references(comments, w);
}
