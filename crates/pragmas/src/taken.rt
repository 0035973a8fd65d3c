// A comment that a rule reads, with what is captured in its body.
ghost use Rattle.std.specs.Prelude.{◌≡◌, ◌-◌, length};
ghost use Rattle.laws.specs.code.Told.{Bounded};
ghost use Rattle.text.specs.Position.{characters, position_of};
ghost use Rattle.analysis.specs.Place.{Inside};
ghost use Rattle.sheet.specs.Lookups.{HoldsMarks, body_span, body};
ghost use Rattle.report.specs.Encode.{encode_specifier};
ghost use Rattle.report.specs.Buffer.{Wrote};
ghost use Rattle.report.specs.Range.{InSource};
ghost use Rattle.pragmas.specs.Readings.{place_in};
ghost use Rattle.pragmas.specs.code.Captured.{CaptureIn, place_as, specifier_as};

use analysis::{Capture, place_of, specifier};
use report::writer::Writer;
use sheet::commented::{Comments, PlacedComment};
use sheet::comments::Comment;
use sheet::fields::Span;
use sheet::lookups::body_span;
use text::position::Position;

// Where a capture in a comment stands in the source, with its marks.
#[tactic(auto, unfolding(sheet::specs::Lookups::body_span, analysis::specs::Place::place_of, crate::specs::Readings::place_in))]
pub fn comment_source_to_span(c: Comment, found: Capture) -> Span
    requires { HoldsMarks c × Inside found ((body_span c).end - (body_span c).start) }
    ensures { result ≡ place_in c found }
{
    let place = place_of(found);
    let start = body_span(c).start;
    Span {
        start: start + place.from,
        end: start + place.to,
    }
}

// What is captured in the body of a comment of a source.
#[derive(Clone, Copy)]
pub struct Taken<'a> {
    comments: &'a Comments<'a>,
    comment: Comment,
    capture: Capture,
    ghost inside: { CaptureIn comments.now.source comment capture },
}

impl<'a> Taken<'a> {
    ghost use Rattle.pragmas.specs.code.Views.{captured_as};

    pub fn new(c: &PlacedComment<'a>, capture: Capture) -> Taken<'a>
        requires { Inside capture (length (body c.now.source c.now.comment)) }
        ensures { captured_as result ≡ record { source = c.now.source; comment = c.now.comment; capture = capture } }
    {
        Taken {
            comments: c.comments(),
            comment: c.comment(),
            capture,
        }
    }

    pub fn comment(&self) -> PlacedComment<'a>
        ensures { result ≡ record { source = (captured_as self.now).source; comment = (captured_as self.now).comment } }
    {
        PlacedComment::new(self.comments, self.comment)
    }

    pub fn capture(&self) -> Capture
        ensures { Bounded
            (result ≡ (captured_as self.now).capture)
            (CaptureIn (captured_as self.now).source (captured_as self.now).comment result) }
    {
        self.capture
    }

    // Its place in the source: what is captured, with its marks.
    #[tactic(auto, using(crate::proofs::Captures::capture_within, sheet::proofs::Marks::holds_marks_lem, sheet::proofs::Bodies::placed_body))]
    pub fn place(&self) -> Span
        ensures { Bounded (result ≡ place_as (captured_as self.now)) (InSource (captured_as self.now).source result) }
    {
        comment_source_to_span(self.comment, self.capture)
    }

    // The positions of its place.
    pub fn positions(&self) -> (Position, Position)
        ensures { (result.0 ≡ position_of characters (captured_as self.now).source (place_as (captured_as self.now)).start)
            × (result.1 ≡ position_of characters (captured_as self.now).source (place_as (captured_as self.now)).end) }
    {
        let place = self.place();
        self.comments.positions(place)
    }

    // Writes the specifier.
    #[tactic(auto, unfolding(crate::specs::Readings::specifier_in))]
    pub fn put(&self, w: &mut Writer)
        ensures { Wrote w.old w.new (encode_specifier (specifier_as (captured_as self.now))) }
    {
        let place = self.place();
        let text = specifier(self.comment().body(), self.capture);
        w.put_specifier(text, self.comments, place);
    }
}
