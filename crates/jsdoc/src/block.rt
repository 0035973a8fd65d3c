// Attributes, and blocks of them.
ghost use Rattle.std.specs.Prelude.{◌≡◌};
ghost use Rattle.jsdoc.specs.Parsed.{ok};
ghost use Rattle.jsdoc.specs.Reader.{unnamed, attribute_mode, parse_attribute, comma, separated_list, parse_import_attribute_block_for_resolution_mode};
ghost use Rattle.jsdoc.specs.code.Answers.{rest_as, value_as};

use super::answers::{Mode, ParseResult};
use super::pieces::{skip_whitespace, tag, word};
use super::quote::{parse_key, parse_quote};
use analysis::mode::from_str;

// The mode of an attribute by its key and its value; none where it is no `resolution-mode`.
fn attribute_mode(key: &[u8], value: &[u8]) -> Option<Mode>
    ensures { result ≡ attribute_mode key.now value.now }
{
    (key == b"resolution-mode".as_slice()).then(|| from_str(value))
}

#[tactic(auto, unfolding(crate::specs::Reader::parse_attribute))]
fn parse_attribute(s: &[u8]) -> ParseResult<'_, Option<Mode>>
    ensures { value_as result ≡ parse_attribute s.now }
{
    let (key, s) = parse_key(s)?;
    let s = word(skip_whitespace(s), b":")?;
    let (value, s) = parse_quote(s)?;
    Some((attribute_mode(key, value), s))
}

// Past a comma and the white space around it.
#[tactic(auto, unfolding(crate::specs::Reader::comma))]
fn comma(s: &[u8]) -> Option<&[u8]>
    ensures { rest_as result ≡ comma s.now }
{
    word(skip_whitespace(s), b",")
}

// Attributes parted by commas: the first mode among them, and what is left.
#[tactic(auto, using(crate::proofs::Blocks::attributes_read))]
fn separated_list(s: &[u8]) -> (Option<Mode>, &[u8])
    ensures { ok result.0 result.1.now ≡ separated_list unnamed s.now }
{
    let mut rest = s;
    let mut mode = None;
    while let Some((n, past)) = parse_attribute(rest) {
        mode = mode.or(n);
        let Some(next) = comma(past) else {
            return (mode, past);
        };
        rest = next;
    }
    (mode, rest)
}

// A block: its mode.
#[tactic(auto, unfolding(crate::specs::Reader::parse_import_attribute_block_for_resolution_mode))]
pub fn parse_import_attribute_block_for_resolution_mode(s: &[u8]) -> ParseResult<'_, Mode>
    ensures { value_as result ≡ parse_import_attribute_block_for_resolution_mode s.now }
{
    let s = word(s, b"{")?;
    let (mode, s) = separated_list(s);
    let s = tag(skip_whitespace(s), b"}")?;
    Some((mode.flatten(), s))
}
