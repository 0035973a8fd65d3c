// The ten patterns of src/analysis.rs as tables, each under its regular expression, where `(?i)` says that case is ignored.
use super::codes::{
    BARE, EITHER, FROM, LONGEST, MARKED, NOT_LF, NOT_QUOTE, NOT_WHITE, ONE, QUOTE, SHORTEST,
    SOURCE_MARK, START, TO, WHITE, WHITE_OR_STAR, WORD,
};

// (?i)^/\s*<reference\s.*?/>
pub const TRIPLE_SLASH: [u8; 26] = [
    START, WORD, 1, b'/', LONGEST, WHITE, WORD, 10, b'<', b'r', b'e', b'f', b'e', b'r', b'e', b'n',
    b'c', b'e', ONE, WHITE, SHORTEST, NOT_LF, WORD, 2, b'/', b'>',
];

// (?i)\spath\s*=\s*["']([^"']*)["']
pub const PATH: [u8; 24] = [
    ONE, WHITE, WORD, 4, b'p', b'a', b't', b'h', LONGEST, WHITE, WORD, 1, b'=', LONGEST, WHITE,
    ONE, QUOTE, FROM, MARKED, LONGEST, NOT_QUOTE, TO, ONE, QUOTE,
];

// (?i)\stypes\s*=\s*["']([^"']*)["']
pub const TYPES: [u8; 25] = [
    ONE, WHITE, WORD, 5, b't', b'y', b'p', b'e', b's', LONGEST, WHITE, WORD, 1, b'=', LONGEST,
    WHITE, ONE, QUOTE, FROM, MARKED, LONGEST, NOT_QUOTE, TO, ONE, QUOTE,
];

// (?i)\sresolution-mode\s*=\s*["']([^"']*)["']
pub const RESOLUTION_MODE: [u8; 35] = [
    ONE, WHITE, WORD, 15, b'r', b'e', b's', b'o', b'l', b'u', b't', b'i', b'o', b'n', b'-', b'm',
    b'o', b'd', b'e', LONGEST, WHITE, WORD, 1, b'=', LONGEST, WHITE, ONE, QUOTE, FROM, MARKED,
    LONGEST, NOT_QUOTE, TO, ONE, QUOTE,
];

// (?i)^[\s*]*@jsxImportSource\s+(\S+)
pub const JSX_IMPORT_SOURCE: [u8; 32] = [
    START,
    LONGEST,
    WHITE_OR_STAR,
    WORD,
    16,
    b'@',
    b'j',
    b's',
    b'x',
    b'I',
    b'm',
    b'p',
    b'o',
    b'r',
    b't',
    b'S',
    b'o',
    b'u',
    b'r',
    b'c',
    b'e',
    ONE,
    WHITE,
    LONGEST,
    WHITE,
    FROM,
    BARE,
    ONE,
    NOT_WHITE,
    LONGEST,
    NOT_WHITE,
    TO,
];

// (?i)^[\s*]*@jsxImportSourceTypes\s+(\S+)
pub const JSX_IMPORT_SOURCE_TYPES: [u8; 37] = [
    START,
    LONGEST,
    WHITE_OR_STAR,
    WORD,
    21,
    b'@',
    b'j',
    b's',
    b'x',
    b'I',
    b'm',
    b'p',
    b'o',
    b'r',
    b't',
    b'S',
    b'o',
    b'u',
    b'r',
    b'c',
    b'e',
    b'T',
    b'y',
    b'p',
    b'e',
    b's',
    ONE,
    WHITE,
    LONGEST,
    WHITE,
    FROM,
    BARE,
    ONE,
    NOT_WHITE,
    LONGEST,
    NOT_WHITE,
    TO,
];

// (?i)^[#@]\s*sourceMappingURL\s*=\s*(\S+)
pub const SOURCE_MAPPING_URL: [u8; 37] = [
    START,
    ONE,
    SOURCE_MARK,
    LONGEST,
    WHITE,
    WORD,
    16,
    b's',
    b'o',
    b'u',
    b'r',
    b'c',
    b'e',
    b'M',
    b'a',
    b'p',
    b'p',
    b'i',
    b'n',
    b'g',
    b'U',
    b'R',
    b'L',
    LONGEST,
    WHITE,
    WORD,
    1,
    b'=',
    LONGEST,
    WHITE,
    FROM,
    BARE,
    ONE,
    NOT_WHITE,
    LONGEST,
    NOT_WHITE,
    TO,
];

// (?i)^\s*@ts-self-types\s*=\s*["']([^"']+)["']
pub const TS_SELF_TYPES: [u8; 37] = [
    START, LONGEST, WHITE, WORD, 14, b'@', b't', b's', b'-', b's', b'e', b'l', b'f', b'-', b't',
    b'y', b'p', b'e', b's', LONGEST, WHITE, WORD, 1, b'=', LONGEST, WHITE, ONE, QUOTE, FROM,
    MARKED, ONE, NOT_QUOTE, LONGEST, NOT_QUOTE, TO, ONE, QUOTE,
];

// (?i)^\s*@ts-types\s*=\s*["']([^"']+)["']
pub const TS_TYPES: [u8; 32] = [
    START, LONGEST, WHITE, WORD, 9, b'@', b't', b's', b'-', b't', b'y', b'p', b'e', b's', LONGEST,
    WHITE, WORD, 1, b'=', LONGEST, WHITE, ONE, QUOTE, FROM, MARKED, ONE, NOT_QUOTE, LONGEST,
    NOT_QUOTE, TO, ONE, QUOTE,
];

// (?i)^\s*@deno-types\s*=\s*(?:["']([^"']+)["']|(\S+))
pub const DENO_TYPES: [u8; 43] = [
    START, LONGEST, WHITE, WORD, 11, b'@', b'd', b'e', b'n', b'o', b'-', b't', b'y', b'p', b'e',
    b's', LONGEST, WHITE, WORD, 1, b'=', LONGEST, WHITE, EITHER, 11, ONE, QUOTE, FROM, MARKED, ONE,
    NOT_QUOTE, LONGEST, NOT_QUOTE, TO, ONE, QUOTE, FROM, BARE, ONE, NOT_WHITE, LONGEST, NOT_WHITE,
    TO,
];
