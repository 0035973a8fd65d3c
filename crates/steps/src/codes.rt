// The numbers of a table, by name.

// Steps: a code, and behind it its argument, if it has one.

// `^`
pub const START: u8 = 1;
// `)`, the captured text ends
pub const TO: u8 = 2;
// n, and n letters: these, whatever their case
pub const WORD: u8 = 3;
// a class: a character of it
pub const ONE: u8 = 4;
// a class, `*`: characters of it, the longer runs preferred
pub const LONGEST: u8 = 5;
// a class, `*?`: characters of it, the shorter runs preferred
pub const SHORTEST: u8 = 6;
// `(`, the captured text begins, marked or bare
pub const FROM: u8 = 7;
// n, `|`: the first alternative, of n numbers, then the second, up to the row's end; the first is preferred
pub const EITHER: u8 = 8;

// Classes of characters.

// `\s`
pub const WHITE: u8 = 1;
// `\S`
pub const NOT_WHITE: u8 = 2;
// `[\s*]`
pub const WHITE_OR_STAR: u8 = 3;
// `.`
pub const NOT_LF: u8 = 4;
// `["']`
pub const QUOTE: u8 = 5;
// `[^"']`
pub const NOT_QUOTE: u8 = 6;
// `[#@]`
pub const SOURCE_MARK: u8 = 7;
// `\p{Alphabetic}`
pub const ALPHABETIC: u8 = 8;
// `[^\s:-]`
pub const NAME_REST: u8 = 9;

// Captured texts.

// no marks stand around it
pub const BARE: u8 = 0;
// marks stand around it
pub const MARKED: u8 = 1;
