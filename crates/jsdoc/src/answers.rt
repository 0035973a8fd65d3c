// What the readers answer: none is monch's backtrace.
use analysis::mode::TypeScriptTypesResolutionMode;

// What is read, and the bytes that are left behind it.
pub type ParseResult<'a, T> = Option<(T, &'a [u8])>;

// The mode that attributes name, if they name one.
pub type Mode = Option<TypeScriptTypesResolutionMode>;

// A reading: the bytes from its quote on, those from behind it on, and its mode.
#[derive(Clone, Copy)]
pub struct JsDocImport<'a> {
    pub start: &'a [u8],
    pub end: &'a [u8],
    pub mode: Mode,
}

// The reading that begins at a brace, and the bytes at which the search for its `import` ended.
#[derive(Clone, Copy)]
pub struct Searched<'a> {
    pub found: Option<JsDocImport<'a>>,
    pub end: &'a [u8],
}
