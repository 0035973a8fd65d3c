// The JSDoc imports of all comments, by ticks over the source.
ghost use Rattle.std.specs.Prelude.{◌≡◌, true, ℕ, ◌≤◌, length, get_or, replicate};
ghost use mathlib.Core.List.{flat_map};
ghost use Rattle.laws.specs.code.Told.{Beside};
ghost use Rattle.text.specs.declared.utf8.Encoding.TheVariants.{Utf8};
ghost use Rattle.text.specs.Utf8.{formed};
ghost use Rattle.wire.specs.Fields.{value_of};
ghost use Rattle.sheet.specs.Lookups.{HoldsMarks};
ghost use Rattle.report.specs.Encode.{encode_jsdoc, encode_list};
ghost use Rattle.report.specs.Decode.{modes};
ghost use Rattle.report.specs.Buffer.{Wrote};
ghost use Rattle.pragmas.specs.code.Views.{encode_any};
ghost use Rattle.jsdoc_list.specs.Imports.{is_star_opened, ticked_by, ticks_of, ticks_in, count_of, import_at, imports_from, jsdoc_imports};

use jsdoc::quote::parse_quote;
use report::names::ReferenceKind;
use report::writer::Writer;
use sheet::commented::{Comments, PlacedComment};
use sheet::comments::Comment;
use sheet::fields::Span;
use sheet::lookups::body;
use sheet::names::{MediaType, is_block, is_javascript};
use text::bytes::next_nonzero;

// Is it a block comment whose body begins with `*`?
#[tactic(auto, using(text::proofs::Words::begins_is))]
pub fn is_star_opened(source: &[u8], c: Comment) -> bool
    requires holds_marks { HoldsMarks c }
    requires end_in_bounds { c.span.end ≤ length source.now }
    ensures { result ≡ is_star_opened source.now c }
{
    is_block(c.kind) && body(source, c).starts_with(b"*")
}

// Ticks the readings of a comment at its body.
#[tactic(auto, using(crate::proofs::Ticking::ticked_part, sheet::proofs::Marks::holds_marks_lem), unfolding(crate::specs::Imports::ticked_by))]
fn tick_comment(c: &PlacedComment, ticks: &mut [u8])
    requires { length ticks.old ≡ length c.now.source }
    ensures { ticks.new ≡ ticked_by c.now.source c.now.comment ticks.old }
{
    if is_star_opened(c.comments().source(), c.comment()) {
        let Span { start, end } = c.body_span();
        jsdoc::imports::tick_imports(c.body(), &mut ticks[start..end]);
    }
}

// Ticks each place of the source at which the place of a reading begins with 1 + the number of its mode; each other keeps its 0.
#[tactic(auto, using(crate::proofs::Ticking::ticks_small, crate::proofs::Turns::all_read_lem))]
fn tick_comments(comments: &Comments, ticks: &mut [u8])
    requires { ticks.old ≡ replicate (length comments.now.source) 0 }
    ensures value { ticks.new ≡ ticks_of comments.now.source comments.now.comments }
    ensures small { (q : ℕ) → get_or ticks.new q 0 ≤ 3 }
    ensures all_read { formed Utf8 0 comments.now.source ≡ true
        → length (imports_from comments.now.source 0 ticks.new) ≡ count_of ticks.new }
{
    prove_eq!(ticks.len(), comments.source().len());
    for c in comments.iter() {
        tick_comment(&c, ticks);
    }
}

// How many places are ticked. The step is not one: a run of zeros is passed at once.
#[tactic(auto, using(crate::proofs::Turns::count_next, crate::proofs::Turns::count_one_lem, crate::proofs::Turns::count_skip, crate::proofs::Turns::count_end))]
fn count_ticks(ticks: &[u8]) -> usize
    ensures { result ≡ count_of ticks.now }
{
    let mut count = 0;
    let mut q = 0;
    while q < ticks.len() {
        if ticks[q] == 0 {
            q = next_nonzero(ticks, q + 1);
        } else {
            count += 1;
            q += 1;
        }
    }
    count
}

// Writes the import whose quote begins at `at`, with the mode of that number.
#[tactic(auto, using(crate::proofs::Turns::import_read), unfolding(crate::specs::Imports::import_at, report::specs::Encode::encode_jsdoc))]
fn put_import(comments: &Comments, at: usize, number: u8, w: &mut Writer)
    requires at_in_bounds { at ≤ length comments.now.source }
    requires number_bound { number ≤ 2 }
    ensures { Wrote w.old w.new
        (encode_any encode_jsdoc (import_at comments.now.source at (value_of modes number))) }
{
    let source = comments.source();
    let Some((text, rest)) = parse_quote(&source[at..]) else {
        return;
    };
    let span = Span {
        start: at,
        end: source.len() - rest.len(),
    };
    w.put(ReferenceKind::Types as u8);
    w.put_specifier(text, comments, span);
    w.put(number);
}

// Writes the imports at the places that are ticked. The step is not one: a run of zeros is passed at once.
#[tactic(auto, using(crate::proofs::Turns::imports_turned, report::proofs::Buffers::parts))]
fn put_imports(comments: &Comments, ticks: &[u8], w: &mut Writer)
    requires ticks_len { length ticks.now ≡ length comments.now.source }
    requires by_index { (q : ℕ) → get_or ticks.now q 0 ≤ 3 }
    ensures { Wrote w.old w.new (flat_map encode_jsdoc (imports_from comments.now.source 0 ticks.now)) }
{
    let mut q = 0;
    while q < ticks.len() {
        let tick = ticks[q];
        if tick == 0 {
            q = next_nonzero(ticks, q + 1);
        } else {
            put_import(comments, q, tick - 1, w);
            q += 1;
        }
    }
}

// Writes the JSDoc imports of a sheet of this media. `ticks` is lent to work in, comes cleared, and is left with the ticks.
#[tactic(auto, using(report::proofs::Buffers::more_append, crate::proofs::Turns::encode_none, crate::proofs::Turns::encode_all))]
pub fn analyze_jsdoc_imports(
    media: MediaType,
    comments: &Comments,
    ticks: &mut [u8],
    w: &mut Writer,
)
    requires utf8 { formed Utf8 0 comments.now.source ≡ true }
    requires ticks_value { ticks.old ≡ replicate (length comments.now.source) 0 }
    ensures { Beside
        (Wrote w.old w.new (encode_list encode_jsdoc (jsdoc_imports media comments.now.source comments.now.comments)))
        (ticks.new ≡ ticks_in media comments.now.source comments.now.comments) }
{
    if is_javascript(media) {
        tick_comments(comments, ticks);
        w.put_number(count_ticks(ticks));
        put_imports(comments, ticks, w);
    } else {
        w.put_number(0);
    }
}
