// The enums of a sheet, each by the numbers of its values.
ghost use Rattle.std.specs.Prelude.{◌≡◌};
ghost use Rattle.wire.specs.Fields.{value_of};
ghost use Rattle.sheet.specs.Media.{is_java_script, is_jsx};
ghost use Rattle.sheet.specs.Comments.{is_block};
ghost use Rattle.sheet.specs.Names.{media_types, kind_number, comment_kinds, side_number, sides, import_phases};
ghost use Rattle.sheet.specs.code.Views.{judged_by};

use wire::refusals::Refusal;

#[derive(Clone, Copy)]
pub enum MediaType {
    JavaScript,
    Jsx,
    Mjs,
    Cjs,
    TypeScript,
    Mts,
    Cts,
    Dts,
    Dmts,
    Dcts,
    Tsx,
}

impl TryFrom<usize> for MediaType {
    type Error = Refusal;

    fn try_from(n: usize) -> Result<MediaType, Refusal>
        ensures { result ≡ judged_by media_types n }
    {
        match n {
            0 => Ok(MediaType::JavaScript),
            1 => Ok(MediaType::Jsx),
            2 => Ok(MediaType::Mjs),
            3 => Ok(MediaType::Cjs),
            4 => Ok(MediaType::TypeScript),
            5 => Ok(MediaType::Mts),
            6 => Ok(MediaType::Cts),
            7 => Ok(MediaType::Dts),
            8 => Ok(MediaType::Dmts),
            9 => Ok(MediaType::Dcts),
            10 => Ok(MediaType::Tsx),
            _ => Err(Refusal::Byte),
        }
    }
}

// The media type of a number; of any greater one, the last.
pub fn media_type(n: usize) -> MediaType
    ensures { result ≡ value_of media_types n }
{
    MediaType::try_from(n).unwrap_or(MediaType::Tsx)
}

// The opposite of the Rust's `is_typed`.
pub fn is_javascript(media: MediaType) -> bool
    ensures { result ≡ is_java_script media }
{
    matches!(
        media,
        MediaType::JavaScript | MediaType::Jsx | MediaType::Mjs | MediaType::Cjs
    )
}

pub fn is_jsx(media: MediaType) -> bool
    ensures { result ≡ is_jsx media }
{
    matches!(media, MediaType::Jsx | MediaType::Tsx)
}

// The last two are the HTML-like comments of ECMAScript's Annex B.
#[derive(Clone, Copy, Default)]
pub enum CommentKind {
    #[default]
    Line,
    Block,
    HtmlOpen,
    HtmlClose,
}

impl From<CommentKind> for u32 {
    ghost from_gives = { λ kind n. n ≡ kind_number kind };

    fn from(kind: CommentKind) -> u32 {
        kind as u32
    }
}

impl TryFrom<usize> for CommentKind {
    type Error = Refusal;

    fn try_from(n: usize) -> Result<CommentKind, Refusal>
        ensures { result ≡ judged_by comment_kinds n }
    {
        match n {
            0 => Ok(CommentKind::Line),
            1 => Ok(CommentKind::Block),
            2 => Ok(CommentKind::HtmlOpen),
            3 => Ok(CommentKind::HtmlClose),
            _ => Err(Refusal::Byte),
        }
    }
}

// The kind of a number; of any greater one, the last.
pub fn comment_kind(n: usize) -> CommentKind
    ensures { result ≡ value_of comment_kinds n }
{
    CommentKind::try_from(n).unwrap_or(CommentKind::HtmlClose)
}

pub fn is_block(kind: CommentKind) -> bool
    ensures { result ≡ is_block kind }
{
    matches!(kind, CommentKind::Block)
}

// The side of a group at its position: the leading ones come first.
#[derive(Clone, Copy, Default, PartialEq, Eq, PartialOrd, Ord)]
pub enum Side {
    #[default]
    Leading,
    Trailing,
}

impl From<Side> for u32 {
    ghost from_gives = { λ side n. n ≡ side_number side };

    fn from(side: Side) -> u32 {
        side as u32
    }
}

impl TryFrom<usize> for Side {
    type Error = Refusal;

    fn try_from(n: usize) -> Result<Side, Refusal>
        ensures { result ≡ judged_by sides n }
    {
        match n {
            0 => Ok(Side::Leading),
            1 => Ok(Side::Trailing),
            _ => Err(Refusal::Byte),
        }
    }
}

// The side of a number; of any greater one, the last.
pub fn side_of(n: usize) -> Side
    ensures { result ≡ value_of sides n }
{
    Side::try_from(n).unwrap_or(Side::Trailing)
}

#[derive(Clone, Copy)]
pub enum ImportPhase {
    Evaluation,
    Source,
    Defer,
}

impl TryFrom<usize> for ImportPhase {
    type Error = Refusal;

    fn try_from(n: usize) -> Result<ImportPhase, Refusal>
        ensures { result ≡ judged_by import_phases n }
    {
        match n {
            0 => Ok(ImportPhase::Evaluation),
            1 => Ok(ImportPhase::Source),
            2 => Ok(ImportPhase::Defer),
            _ => Err(Refusal::Byte),
        }
    }
}

// The phase of a number; of any greater one, the last.
pub fn import_phase(n: usize) -> ImportPhase
    ensures { result ≡ value_of import_phases n }
{
    ImportPhase::try_from(n).unwrap_or(ImportPhase::Defer)
}
