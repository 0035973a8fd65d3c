// `@import A from "./a.ts" with {..}`
ghost use Rattle.std.specs.Prelude.{◌≡◌};
ghost use Rattle.jsdoc.specs.Parsed.{value};
ghost use Rattle.jsdoc.specs.Reader.{parse_attributes, parse_from, parse_jsdoc_import_decl};
ghost use Rattle.jsdoc.specs.code.Answers.{value_as, hit_as};

use super::answers::{JsDocImport, Mode, ParseResult};
use super::block::parse_import_attribute_block_for_resolution_mode;
use super::clause::skip_clause;
use super::pieces::{skip_whitespace, tag, whitespace, word};
use super::quote::parse_quote;
use text::bytes::byte_at;

// `with {..}`, with the white space before it.
#[tactic(auto, unfolding(crate::specs::Reader::parse_attributes))]
fn parse_attributes(s: &[u8]) -> ParseResult<'_, Mode>
    ensures { value_as result ≡ parse_attributes s.now }
{
    let s = word(skip_whitespace(s), b"with")?;
    parse_import_attribute_block_for_resolution_mode(s)
}

// What follows the clause.
#[tactic(auto, unfolding(crate::specs::Reader::parse_from))]
fn parse_from(s: &[u8]) -> Option<JsDocImport<'_>>
    ensures { hit_as result ≡ value (parse_from s.now) }
{
    let start = word(skip_whitespace(s), b"from")?;
    let (_, end) = parse_quote(start)?;
    let (mode, _) = parse_attributes(end).unwrap_or((None, end));
    Some(JsDocImport { start, end, mode })
}

// The declaration that begins `rest`. Most marks begin none, which the second byte tells.
#[tactic(auto, using(crate::proofs::Steps::no_import), unfolding(crate::specs::Reader::parse_jsdoc_import_decl))]
pub fn parse_jsdoc_import_decl(rest: &[u8]) -> Option<JsDocImport<'_>>
    ensures { hit_as result ≡ value (parse_jsdoc_import_decl rest.now) }
{
    if byte_at(rest, 1) != u32::from(b'i') {
        return None;
    }
    let s = tag(rest, b"@import")?;
    let s = whitespace(s)?;
    let s = skip_clause(s)?;
    parse_from(s)
}
