// The pieces that all readers are made of, each from the front of the bytes; named after monch's.
ghost use Rattle.std.specs.Prelude.{◌≡◌, ◌<◌, ◌≤◌, length, option_map};
ghost use Rattle.laws.specs.Codec.{IfThere};
ghost use Rattle.jsdoc.specs.Parsed.{ok};
ghost use Rattle.jsdoc.specs.Reader.{skip_whitespace, whitespace, tag as tag_of, word as word_of, up_to};
ghost use Rattle.jsdoc.specs.code.Answers.{rest_as, from_first};

use text::bytes::next_of;
use text::class::{Class, run_end};

// Past the white space.
#[tactic(auto, using(std::proofs::lemmas::Slice::between_to_end), unfolding(crate::specs::Reader::skip_whitespace, crate::specs::Reader::skip))]
pub fn skip_whitespace(s: &[u8]) -> &[u8]
    ensures { ok tt result.now ≡ skip_whitespace s.now }
{
    &s[run_end(s, 0, Class::White)..]
}

// Past the white space, of which there is some.
#[tactic(auto, using(std::proofs::lemmas::Slice::between_to_end), unfolding(crate::specs::Reader::whitespace, crate::specs::Reader::skip))]
pub fn whitespace(s: &[u8]) -> Option<&[u8]>
    ensures { rest_as result ≡ whitespace s.now }
{
    let end = run_end(s, 0, Class::White);
    if end == 0 { None } else { Some(&s[end..]) }
}

// Past the word.
#[tactic(auto, using(crate::proofs::Steps::stripped))]
pub fn tag<'a>(s: &'a [u8], word: &[u8]) -> Option<&'a [u8]>
    ensures { rest_as result ≡ tag_of word.now s.now }
{
    s.strip_prefix(word)
}

// Past the word and the white space after it.
#[tactic(auto, unfolding(crate::specs::Reader::word))]
pub fn word<'a>(s: &'a [u8], word: &[u8]) -> Option<&'a [u8]>
    ensures { rest_as result ≡ word_of word.now s.now }
{
    let rest = tag(s, word)?;
    Some(skip_whitespace(rest))
}

// From the first `mark` on.
#[tactic(auto, using(std::proofs::lemmas::Slice::between_to_end, crate::proofs::Steps::first_found, crate::proofs::Steps::first_missing))]
#[inline(always)]
pub fn from_first(s: &[u8], mark: u8) -> Option<&[u8]>
    ensures value { option_map (λ t. t.now) result ≡ from_first mark s.now }
    ensures there { IfThere (λ t. (0 < length t.now) × (length t.now ≤ length s.now)) result }
{
    next_of(s, 0, mark).map(|at| &s[at..])
}

// Past the first `mark`.
#[tactic(auto, using(crate::proofs::Steps::up_to_is))]
pub fn up_to(s: &[u8], mark: u8) -> Option<&[u8]>
    ensures { rest_as result ≡ up_to mark s.now }
{
    let (_, rest) = from_first(s, mark)?.split_first()?;
    Some(rest)
}
