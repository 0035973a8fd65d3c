// The pieces of a template, and the heads of arguments, of properties and of an Object that holds attributes.
ghost use Rattle.std.specs.Prelude.{◌≡◌, [], length};
ghost use Rattle.laws.specs.Decoded.{on_ok};
ghost use Rattle.laws.specs.code.Told.{Told};
ghost use Rattle.wire.specs.code.Views.{read_as, Past};
ghost use Rattle.sheet.specs.Nodes.{many, piece};
ghost use Rattle.sheet.specs.Shape.{any_uncooked};
ghost use Rattle.sheet_heads.specs.code.Parts.{argument_head, key_head, property_head, attributes_head};
ghost use Rattle.sheet_heads.specs.code.Views.{piece_as, nodes_of, property_as, NoMore, PastArgument, PastAttributes};

use super::quoted::{Tag, read_tag_of};
use sheet::fields::{Span, read_span};
use sheet::limits::{PROPERTY_LIMIT, TEXT_LIMIT};
use text::utf8::Encoding;
use wire::refusals::Refusal;
use wire::{Cursor, ReadResult};

// What stands before a property's first node.
#[derive(Clone, Copy)]
pub enum Property<'a> {
    Spread,
    Other,
    ChildKey,
    StringKey(&'a [u8]),
    NameKey(&'a [u8]),
}

// How many nodes a property holds.
pub fn nodes_of(p: Property) -> usize
    ensures { result ≡ nodes_of p.entry }
{
    match p {
        Property::ChildKey => 2,
        Property::Spread | Property::Other | Property::StringKey(_) | Property::NameKey(_) => 1,
    }
}

// A piece of a template: its text, or none if it is uncooked.
#[tactic(auto, unfolding(sheet::specs::Nodes::piece, wire::specs::Optional::optional))]
pub fn read_piece(s: &[u8]) -> ReadResult<'_, Option<&[u8]>>
    ensures { Told piece_as
        (piece s.now)
        (Past (length s.now)) result }
{
    let (cooked, next) = s.flag()?;
    if cooked {
        let (x, next) = next.text(Encoding::Wtf8, TEXT_LIMIT)?;
        return Ok((Some(x), next));
    }
    Ok((None, next))
}

// So many pieces of a template: is one uncooked?
#[tactic(auto, using(crate::proofs::Pieces::pieces_looped))]
pub fn read_pieces(s: &[u8], count: usize) -> ReadResult<'_, bool>
    ensures { Told read_as
        (on_ok any_uncooked (many [] piece count s.now))
        (NoMore (length s.now)) result }
{
    let mut next = s;
    let mut uncooked = false;
    for _ in 0..count {
        let (piece, after) = read_piece(next)?;
        uncooked |= piece.is_none();
        next = after;
    }
    Ok((uncooked, next))
}

// An argument up to its node: is it spread, and its span.
#[tactic(auto, unfolding(crate::specs::code::Parts::argument_head))]
#[inline(always)]
pub fn read_argument<'a>(source: &[u8], s: &'a [u8]) -> ReadResult<'a, (bool, Span)>
    ensures { Told read_as
        (argument_head source.now s.now)
        (PastArgument source.now (length s.now)) result }
{
    let (spread, next) = s.flag()?;
    let (span, next) = read_span(source, next)?;
    Ok(((spread, span), next))
}

// A key of a property, by its byte.
#[tactic(auto, unfolding(crate::specs::code::Parts::key_head))]
fn read_key(s: &[u8], kind: usize) -> ReadResult<'_, Property<'_>>
    ensures { Told property_as
        (key_head kind s.now)
        (NoMore (length s.now)) result }
{
    // No enum of the kinds: the byte is judged where it is read, and a second match would say no more.
    match kind {
        0 => Ok((Property::ChildKey, s)),
        1 => {
            let (x, next) = s.text(Encoding::Wtf8, TEXT_LIMIT)?;
            Ok((Property::StringKey(x), next))
        }
        2 => {
            let (x, next) = s.text(Encoding::Utf8, TEXT_LIMIT)?;
            Ok((Property::NameKey(x), next))
        }
        _ => Err(Refusal::Byte),
    }
}

// A property up to its first node.
#[tactic(auto, unfolding(crate::specs::code::Parts::property_head))]
pub fn read_property(s: &[u8]) -> ReadResult<'_, Property<'_>>
    ensures { Told property_as
        (property_head s.now)
        (Past (length s.now)) result }
{
    let (kind, next) = s.byte()?;
    // No enum of the kinds, as above.
    match kind {
        0 => Ok((Property::Spread, next)),
        1 => Ok((Property::Other, next)),
        2 => {
            let (key, next) = next.byte()?;
            read_key(next, key)
        }
        _ => Err(Refusal::Byte),
    }
}

// An Object that holds attributes up to its properties, with so many levels left, its own among them: its span and the number of its properties.
#[tactic(auto, using(crate::proofs::Counts::count_within), unfolding(crate::specs::code::Parts::attributes_head))]
pub fn read_attributes<'a>(
    source: &[u8],
    s: &'a [u8],
    levels: usize,
) -> ReadResult<'a, (Span, usize)>
    ensures { Told read_as
        (attributes_head source.now levels s.now)
        (PastAttributes (length s.now) levels) result }
{
    let (_, next) = read_tag_of(s, Tag::Object as usize, levels)?;
    let (span, next) = read_span(source, next)?;
    let (count, next) = next.count(PROPERTY_LIMIT)?;
    Ok(((span, count), next))
}
