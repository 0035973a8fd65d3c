// Where the JSDoc imports of all comments are read: for each its rule, and the first `{` or `@import` that reads it.
ghost use Rattle.std.specs.Prelude.{◌≡◌, ℕ, ◌<◌, ◌≤◌, length, get_or};
ghost use mathlib.Core.List.{flat_map};
ghost use Rattle.sheet.specs.Limits.{source_limit};
ghost use Rattle.sheet.specs.Lookups.{body, body_span};
ghost use Rattle.report.specs.Buffer.{Wrote};
ghost use Rattle.report.specs.Origin.{encode_origin};
ghost use Rattle.jsdoc_list.specs.Origins.{opener_at, openers_from, origins_of, jsdoc_origins};

use super::imports::is_star_opened;
use jsdoc::origins::note_origins;
use report::origins::{EntryRule, put_origin};
use report::writer::Writer;
use sheet::commented::{Comments, PlacedComment};
use sheet::fields::Span;
use sheet::names::{MediaType, is_javascript};

// Writes the origin of a reading from place `k` of a comment's body.
fn put_opener(c: &PlacedComment, k: usize, w: &mut Writer)
    requires { k < length (body c.now.source c.now.comment) }
    ensures { Wrote w.old w.new
        (encode_origin (opener_at (body c.now.source c.now.comment) (body_span c.now.comment).start k)) }
{
    let rule = if c.body()[k] == b'{' {
        EntryRule::Brace
    } else {
        EntryRule::Declaration
    };
    put_origin(rule, c.body_span().start + k, w);
}

// Writes the origins that are noted at the places of a comment's body.
#[tactic(auto, using(crate::proofs::Openers::openers_turned, report::proofs::Buffers::parts))]
fn put_openers(c: &PlacedComment, origins: &[u16], w: &mut Writer)
    requires { (q : ℕ) → get_or origins.now q 0 ≤ length (body c.now.source c.now.comment) }
    ensures { Wrote w.old w.new (flat_map encode_origin
        (openers_from (body c.now.source c.now.comment) (body_span c.now.comment).start origins.now)) }
{
    for noted in origins {
        let noted = *noted as usize;
        if noted != 0 {
            put_opener(c, noted - 1, w);
        }
    }
}

// Writes the origins of the imports of a comment.
#[tactic(auto, using(crate::proofs::Openers::openers_within, report::proofs::Buffers::wrote_none, sheet::proofs::Bodies::placed_body, sheet::proofs::Marks::holds_marks_lem), unfolding(laws::proofs::Prelude::flat_map, crate::specs::Origins::origins_of))]
fn put_comment_origins(c: &PlacedComment, origins: &mut [u16], w: &mut Writer)
    requires source_len_bound { length c.now.source ≤ source_limit }
    requires source_in_bounds { length c.now.source ≤ length origins.old }
    ensures { Wrote w.old w.new (flat_map encode_origin (origins_of c.now.source c.now.comment)) }
{
    if is_star_opened(c.comments().source(), c.comment()) {
        let Span { start, end } = c.body_span();
        let noted = &mut origins[start..end];
        note_origins(c.body(), noted);
        put_openers(c, noted, w);
    }
}

// Writes the origins of the JSDoc imports of a sheet of this media. `origins` is lent to work in.
#[tactic(auto, using(laws::proofs::Lists::flat_map_append, report::proofs::Buffers::parts, report::proofs::Buffers::wrote_none), unfolding(laws::proofs::Prelude::flat_map, crate::specs::Origins::jsdoc_origins))]
pub fn put_jsdoc_origins(media: MediaType, comments: &Comments, origins: &mut [u16], w: &mut Writer)
    requires short { length comments.now.source ≤ source_limit }
    requires source_in_bounds { length comments.now.source ≤ length origins.old }
    ensures { Wrote w.old w.new
        (flat_map encode_origin (jsdoc_origins media comments.now.source comments.now.comments)) }
{
    if is_javascript(media) {
        for c in comments.iter() {
            put_comment_origins(&c, origins, w);
        }
    }
}
