// The writer into a lent buffer: it fills the buffer from the front, and once a byte finds no room nothing more is written.
ghost use Rattle.std.specs.Prelude.{◌≡◌, [], ◌∷◌, ℕ, length};
ghost use Rattle.text.specs.Lossy.{lossy, replaced};
ghost use Rattle.wire.specs.Fields.{encode_flag};
ghost use Rattle.wire.specs.Number.{encode_number};
ghost use Rattle.wire.specs.Text.{encode_text};
ghost use Rattle.report.specs.Encode.{encode_position, encode_range, encode_specifier};
ghost use Rattle.report.specs.Range.{range_of, InSource};
ghost use Rattle.report.specs.Buffer.{buffer_as, standing, Wrote};
ghost use Rattle.report.specs.Answer.{cleared_from, refused_with, answered, numbered_as, outcome_as};
ghost use Rattle.report.specs.code.Lossy.{Replacing};

use sheet::commented::Comments;
use sheet::fields::Span;
use text::position::Position;
use wire::refusals::Refusal;

// The lent buffer, and where the next byte goes; nowhere once a byte found no room.
#[derive(Drop)]
pub struct Writer<'a> {
    pub out: &'a mut [u8],
    pub at: Option<usize>,
}

// The report's length, or a refusal.
pub type Outcome = Result<usize, Refusal>;

impl<'a> Writer<'a> {
    // Nothing is written yet.
    pub fn new(out: &'a mut [u8]) -> Writer<'a>
        ensures { result ≡ record { out = out.entry; at = Some 0 } }
    {
        Writer { out, at: Some(0) }
    }

    // Writes a byte.
    #[tactic(auto, using(crate::proofs::Buffers::room))]
    pub fn put(&mut self, b: u8)
        ensures { Wrote self.old self.new (b ∷ []) }
    {
        match self.at {
            Some(at) if at < self.out.len() => {
                self.out[at] = b;
                self.at = Some(at + 1);
            }
            _ => self.at = None,
        }
    }

    // Writes a flag.
    #[tactic(auto, unfolding(wire::specs::Fields::encode_flag))]
    pub fn put_flag(&mut self, b: bool)
        ensures { Wrote self.old self.new (encode_flag b) }
    {
        self.put(u8::from(b));
    }

    // Writes a number, in at most five groups.
    #[tactic(auto, using(crate::proofs::Buffers::parts, crate::proofs::Numbers::groups_left), unfolding(wire::specs::Number::encode_number))]
    pub fn put_number(&mut self, n: usize)
        ensures { Wrote self.old self.new (encode_number n) }
    {
        let mut rest = n;
        for _ in 0..5usize {
            if rest < 128 {
                return self.put(rest as u8);
            }
            self.put((128 + rest % 128) as u8);
            rest /= 128;
        }
    }

    // Writes bytes, one after the other: to copy a slice at once takes `memmove`, which no archive for C asks for.
    #[tactic(auto, using(crate::proofs::Buffers::bytes_on, crate::proofs::Buffers::bytes_end))]
    pub fn put_bytes(&mut self, s: &[u8])
        ensures { Wrote self.old self.new s.now }
    {
        for b in s {
            self.put(*b);
        }
    }

    // Writes a text.
    #[tactic(auto, using(crate::proofs::Buffers::more_append), unfolding(wire::specs::Text::encode_text))]
    pub fn put_text(&mut self, s: &[u8])
        ensures { Wrote self.old self.new (encode_text s.now) }
    {
        self.put_number(s.len());
        self.put_bytes(s);
    }

    // Writes the bytes of a text in WTF-8, with U+FFFD for each surrogate, and counts these.
    #[tactic(auto, using(crate::proofs::Buffers::parts, crate::proofs::Lossy::characters_left))]
    fn put_lossy(&mut self, s: &[u8]) -> usize
        ensures { Replacing (Wrote self.old self.new (lossy s.now)) (result ≡ replaced s.now) }
    {
        if text::bytes::next_of(s, 0, 0xED).is_none() {
            self.put_bytes(s);
            return 0;
        }
        let mut i = 0;
        let mut count = 0;
        while i < s.len() {
            if text::utf8::surrogate_at(&s[i..]) {
                self.put_bytes(b"\xEF\xBF\xBD");
                i += 3;
                count += 1;
            } else {
                self.put(s[i]);
                i += 1;
            }
        }
        count
    }

    // Writes a text in WTF-8, with U+FFFD for each surrogate, and counts these.
    #[tactic(auto, using(crate::proofs::Buffers::more_append, text::proofs::Replaced::lossy_length), unfolding(wire::specs::Text::encode_text))]
    pub fn put_lossy_text(&mut self, s: &[u8]) -> usize
        ensures { Replacing (Wrote self.old self.new (encode_text (lossy s.now))) (result ≡ replaced s.now) }
    {
        self.put_number(s.len());
        self.put_lossy(s)
    }

    // Writes a position.
    #[tactic(auto, using(crate::proofs::Buffers::more_append), unfolding(crate::specs::Encode::encode_position))]
    fn put_position(&mut self, p: Position)
        ensures { Wrote self.old self.new (encode_position p) }
    {
        self.put_number(p.line);
        self.put_number(p.column);
    }

    // Writes the range of a span of the source.
    #[tactic(auto, using(crate::proofs::Buffers::more_append), unfolding(crate::specs::Encode::encode_range))]
    pub fn put_span(&mut self, comments: &Comments, span: Span)
        requires { InSource comments.now.source span }
        ensures { Wrote self.old self.new (encode_range (range_of comments.now.source span)) }
    {
        let (start, end) = comments.positions(span);
        self.put_position(start);
        self.put_position(end);
    }

    // Writes a specifier: a text, and the range of a span of the source.
    #[tactic(auto, using(crate::proofs::Buffers::more_append), unfolding(crate::specs::Encode::encode_specifier))]
    pub fn put_specifier(&mut self, text: &[u8], comments: &Comments, span: Span)
        requires { InSource comments.now.source span }
        ensures { Wrote self.old self.new
            (encode_specifier (record { text = text.now; range = range_of comments.now.source span })) }
    {
        self.put_text(text);
        self.put_span(comments, span);
    }

    // Writes a specifier whose text is in WTF-8, with U+FFFD for each surrogate, and counts these.
    #[tactic(auto, using(crate::proofs::Buffers::more_append), unfolding(crate::specs::Encode::encode_specifier))]
    pub fn put_lossy_specifier(&mut self, text: &[u8], comments: &Comments, span: Span) -> usize
        requires { InSource comments.now.source span }
        ensures { Replacing
            (Wrote self.old self.new
            (encode_specifier (record { text = lossy text.now; range = range_of comments.now.source span })))
            (result ≡ replaced text.now) }
    {
        let count = self.put_lossy_text(text);
        self.put_span(comments, span);
        count
    }

    // How many bytes stand in the buffer.
    pub fn written(&self) -> usize
        ensures { result ≡ length (standing self.now.out.now self.now.at) }
    {
        let size = self.out.len();
        self.at.map_or(size, |at| at.min(size))
    }

    // The end of the report: every byte past it is zero; refusal 10 where a byte found no room.
    #[tactic(auto, using(crate::proofs::Answers::accepted_at))]
    pub fn finish(self) -> Outcome
        ensures { outcome_as result self.exit.0.now
            ≡ answered (length self.entry.out.now) (buffer_as self.entry.out.now self.entry.at) }
    {
        let Writer { out, at } = self;
        let Some(at) = at else {
            return refuse_all(out, Refusal::Buffer);
        };
        clear_from(out, at);
        Ok(at.min(out.len()))
    }
}

// Zeros from `at` to the end.
pub fn clear_from(out: &mut [u8], at: usize)
    ensures { out.new ≡ cleared_from at out.old }
{
    if at < out.len() {
        out[at..].fill(0);
    }
}

// A refusal, of any number: the whole buffer is zero.
pub fn refuse_all<E>(out: &mut [u8], refusal: E) -> Result<usize, E>
    ensures { (number : E → ℕ) → numbered_as number result out.new ≡ refused_with (number refusal) (length out.old) }
{
    out.fill(0);
    Err(refusal)
}
