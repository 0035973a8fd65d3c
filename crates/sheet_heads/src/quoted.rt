// Tags, and Strings that other nodes hold.
ghost use Rattle.std.specs.Prelude.{◌≡◌, true, ◌+◌, eqb, ltb, length};
ghost use Rattle.laws.specs.code.Told.{Told};
ghost use Rattle.wire.specs.code.Views.{read_as, text_as, Past};
ghost use Rattle.sheet.specs.Quotation.{looks_quoted};
ghost use Rattle.sheet.specs.Nodes.{judge_tag, tag, text_behind, quoted};
ghost use Rattle.sheet_heads.specs.code.Views.{OfTag, tag_number, tag_as, quoted_as, PastTag, PastQuoted};

use sheet::fields::{Span, read_span};
use sheet::limits::TEXT_LIMIT;
use text::utf8::Encoding;
use wire::refusals::Refusal;
use wire::{Cursor, ReadResult};

// The kinds of nodes, in the order of their tags.
#[derive(Clone, Copy, Debug, PartialEq, Eq, Hash)]
pub enum Tag {
    Other,
    String,
    Name,
    Template,
    Binary,
    Object,
    Call,
    Import,
    NamedExport,
    ExportAll,
    ImportType,
    ImportEquals,
    Module,
}

impl TryFrom<usize> for Tag {
    type Error = Refusal;

    fn try_from(t: usize) -> Result<Tag, Refusal>
        ensures { OfTag t result }
    {
        match t {
            0 => Ok(Tag::Other),
            1 => Ok(Tag::String),
            2 => Ok(Tag::Name),
            3 => Ok(Tag::Template),
            4 => Ok(Tag::Binary),
            5 => Ok(Tag::Object),
            6 => Ok(Tag::Call),
            7 => Ok(Tag::Import),
            8 => Ok(Tag::NamedExport),
            9 => Ok(Tag::ExportAll),
            10 => Ok(Tag::ImportType),
            11 => Ok(Tag::ImportEquals),
            12 => Ok(Tag::Module),
            _ => Err(Refusal::Byte),
        }
    }
}

// A String: its span in the source, and its text.
#[derive(Clone, Copy)]
pub struct Quoted<'a> {
    pub span: Span,
    pub text: &'a [u8],
}

// A tag that its place allows: is a level left for its node?
#[inline(always)]
fn judge_tag(s: &[u8], tag: Tag, levels: usize) -> ReadResult<'_, Tag>
    ensures { Told tag_as
        (judge_tag true levels (tag_number tag) s.now)
        (PastTag (length s.now + 1) levels) result }
{
    if 0 < levels {
        Ok((tag, s))
    } else {
        Err(Refusal::Limit)
    }
}

// The tag of any node.
#[tactic(auto, unfolding(sheet::specs::Nodes::tag))]
#[inline(always)]
pub fn read_tag(s: &[u8], levels: usize) -> ReadResult<'_, Tag>
    ensures { Told tag_as
        (tag (λ t. ltb t 13) levels s.now)
        (PastTag (length s.now) levels) result }
{
    let (t, next) = s.byte()?;
    judge_tag(next, Tag::try_from(t)?, levels)
}

// The tag of a node where only one is allowed.
#[tactic(auto, unfolding(sheet::specs::Nodes::tag))]
#[inline(always)]
pub fn read_tag_of(s: &[u8], wanted: usize, levels: usize) -> ReadResult<'_, usize>
    ensures { Told read_as
        (tag (eqb wanted) levels s.now)
        (PastTag (length s.now) levels) result }
{
    let (t, next) = s.byte()?;
    if wanted != t {
        return Err(Refusal::Byte);
    }
    if levels == 0 {
        return Err(Refusal::Limit);
    }
    Ok((t, next))
}

// Has the text at least two bytes, and does it begin and end with the same mark?
#[tactic(auto, using(crate::proofs::Tests::looks))]
#[inline(always)]
fn looks_quoted(text: &[u8]) -> bool
    ensures { result ≡ looks_quoted text.now }
{
    matches!(text, [b'"', .., b'"'] | [b'\'', .., b'\''])
}

// The text of a String whose span was read; before it, what the source has there must look like one.
#[tactic(auto, unfolding(sheet::specs::Nodes::text_behind))]
#[inline(always)]
pub fn read_string_text<'a>(quotation: &[u8], s: &'a [u8]) -> ReadResult<'a, &'a [u8]>
    ensures { Told text_as
        (text_behind quotation.now s.now)
        (Past (length s.now)) result }
{
    if looks_quoted(quotation) {
        s.text(Encoding::Wtf8, TEXT_LIMIT)
    } else {
        Err(Refusal::Quotation)
    }
}

// A String, with so many levels left, its own among them.
#[tactic(auto, unfolding(sheet::specs::Nodes::quoted, sheet::specs::Nodes::text_behind))]
pub fn read_quoted<'a>(source: &[u8], s: &'a [u8], levels: usize) -> ReadResult<'a, Quoted<'a>>
    ensures { Told quoted_as
        (quoted source.now levels s.now)
        (PastQuoted source.now (length s.now)) result }
{
    let (_, next) = read_tag_of(s, Tag::String as usize, levels)?;
    let (span, next) = read_span(source, next)?;
    let (text, next) = read_string_text(&source[span.start..span.end], next)?;
    Ok((Quoted { span, text }, next))
}
