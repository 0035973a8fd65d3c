// `{import("./a.ts", {with: {..}}).A}`
ghost use Rattle.std.specs.Prelude.{◌≡◌};
ghost use Rattle.jsdoc.specs.Parsed.{value};
ghost use Rattle.jsdoc.specs.Reader.{second_param_start, parse_second_param_obj_with_leading_comma, close_call, parse_tail, seek, parse_call};
ghost use Rattle.jsdoc.specs.code.Answers.{rest_as, value_as, hit_as, Scans};

use super::answers::{JsDocImport, Mode, ParseResult, Searched};
use super::block::parse_import_attribute_block_for_resolution_mode;
use super::pieces::{skip_whitespace, tag, up_to, word};
use super::quote::parse_quote;

// Past `, {with:`.
#[tactic(auto, unfolding(crate::specs::Reader::second_param_start))]
fn second_param_start(s: &[u8]) -> Option<&[u8]>
    ensures { rest_as result ≡ second_param_start s.now }
{
    let s = word(s, b",")?;
    let s = word(s, b"{")?;
    let s = word(s, b"with")?;
    word(s, b":")
}

// `, {with: {..}}`
#[tactic(auto, unfolding(crate::specs::Reader::parse_second_param_obj_with_leading_comma))]
fn parse_second_param_obj_with_leading_comma(s: &[u8]) -> ParseResult<'_, Mode>
    ensures { value_as result ≡ parse_second_param_obj_with_leading_comma s.now }
{
    let s = second_param_start(s)?;
    let (mode, s) = parse_import_attribute_block_for_resolution_mode(s)?;
    let s = word(skip_whitespace(s), b"}")?;
    Some((mode, s))
}

// `)`, and then a closing brace.
#[tactic(auto, unfolding(crate::specs::Reader::close_call))]
fn close_call(s: &[u8], mode: Mode) -> ParseResult<'_, Mode>
    ensures { value_as result ≡ close_call mode s.now }
{
    let s = tag(s, b")")?;
    let s = up_to(s, b'}')?;
    Some((mode, s))
}

// What follows the quote: the mode.
#[tactic(auto, unfolding(crate::specs::Reader::parse_tail))]
fn parse_tail(s: &[u8]) -> ParseResult<'_, Mode>
    ensures { value_as result ≡ parse_tail s.now }
{
    let s = skip_whitespace(s);
    let (mode, s) = parse_second_param_obj_with_leading_comma(s).unwrap_or((None, s));
    close_call(s, mode)
}

// The call of `import`.
#[tactic(auto, unfolding(crate::specs::Reader::parse_call))]
fn parse_call(s: &[u8]) -> Option<JsDocImport<'_>>
    ensures { hit_as result ≡ value (parse_call s.now) }
{
    let s = word(s, b"import")?;
    let start = word(s, b"(")?;
    let (_, end) = parse_quote(start)?;
    let (mode, _) = parse_tail(end)?;
    Some(JsDocImport { start, end, mode })
}

// From the first `import` on, or from a `}` before it.
#[tactic(auto, using(crate::proofs::Searches::seeking, text::proofs::Words::begins_is))]
fn seek(s: &[u8]) -> &[u8]
    ensures { result.now ≡ seek s.now }
{
    let mut rest = s;
    'scan: while let [b, next @ ..] = rest {
        if *b == b'}' || (*b == b'i' && rest.starts_with(b"import")) {
            break 'scan;
        }
        rest = next;
    }
    rest
}

// The reading from a brace, and where its search ended: a brace before that has no other reading.
#[tactic(auto, unfolding(crate::specs::Reader::parse_jsdoc_dynamic_import, crate::specs::Reader::sought))]
pub fn parse_jsdoc_dynamic_import(rest: &[u8]) -> Searched<'_>
    ensures { Scans rest.now result }
{
    match tag(rest, b"{") {
        Some(s) => {
            let end = seek(s);
            Searched {
                found: parse_call(end),
                end,
            }
        }
        None => Searched {
            found: None,
            end: rest,
        },
    }
}
