// Quotes and names.
ghost use Rattle.std.specs.Prelude.{◌≡◌};
ghost use Rattle.jsdoc.specs.Reader.{is_mark, parse_quote, parse_ident, parse_key};
ghost use Rattle.jsdoc.specs.code.Answers.{text_as};

use super::answers::ParseResult;
use super::pieces::up_to;
use text::class::{Class, class_at, run_end};

#[tactic(auto, unfolding(crate::specs::Reader::is_mark))]
fn is_mark(b: u8) -> bool
    ensures { result ≡ is_mark b }
{
    b == b'"' || b == b'\''
}

// A quote: the text between its marks.
#[tactic(auto, using(crate::proofs::Texts::up_to_shorter), unfolding(crate::specs::Reader::parse_quote))]
pub fn parse_quote(s: &[u8]) -> ParseResult<'_, &[u8]>
    ensures { text_as result ≡ parse_quote s.now }
{
    let (mark, text) = s.split_first()?;
    if !is_mark(*mark) {
        return None;
    }
    let rest = up_to(text, *mark)?;
    Some((&text[..text.len() - rest.len() - 1], rest))
}

// A name.
#[tactic(auto, using(crate::proofs::Steps::ident_found, crate::proofs::Steps::ident_missing))]
pub fn parse_ident(s: &[u8]) -> ParseResult<'_, &[u8]>
    ensures { text_as result ≡ parse_ident s.now }
{
    let first = class_at(s, Class::Alphabetic);
    if first == 0 {
        return None;
    }
    Some(s.split_at(run_end(s, first, Class::NameRest)))
}

// A quote or a name.
#[tactic(auto, unfolding(crate::specs::Reader::parse_key))]
pub fn parse_key(s: &[u8]) -> ParseResult<'_, &[u8]>
    ensures { text_as result ≡ parse_key s.now }
{
    parse_quote(s).or_else(|| parse_ident(s))
}
