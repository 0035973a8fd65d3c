// UTF-8 and WTF-8, by the rows of Unicode's table of well-formed byte sequences.
ghost use Rattle.std.specs.Prelude.{◌≡◌, false, ◌≤◌, ◌<◌, length, drop};
ghost use Rattle.laws.specs.code.Told.{Meant};
ghost use Rattle.text.specs.Utf8.{admits, surrogate, besides, length_by, char_length, code_by, char_at, formed, well_formed};
ghost use Rattle.text.specs.code.Rows.{ranges_of, all_within};
ghost use Rattle.text.specs.ByRows.{ByRows};
ghost use Rattle.text.specs.WellFormed.{Judges};

use super::blocks::all_in_block;
use super::bytes::byte_at;

// UTF-8, or WTF-8, in which a surrogate stands by itself too.
#[derive(Clone, Copy, Debug, PartialEq, Eq)]
pub enum Encoding {
    Utf8,
    Wtf8,
}

// A character's length in bytes, 0 for none, and its code point.
#[derive(Clone, Copy, Debug, PartialEq, Eq)]
pub struct Char {
    pub len: usize,
    pub code: u32,
}

// A byte that goes on with a character.
const CONTINUATION: (u8, u8) = (0x80, 0xBF);

// A surrogate, and a lead surrogate with a trail surrogate right behind it.
const SURROGATE: [(u8, u8); 3] = [(0xED, 0xED), (0xA0, 0xBF), CONTINUATION];

const PAIR: [(u8, u8); 6] = [
    (0xED, 0xED),
    (0xA0, 0xAF),
    CONTINUATION,
    (0xED, 0xED),
    (0xB0, 0xBF),
    CONTINUATION,
];

// Each byte of the text lies in its range, as far as both go.
fn all_within(s: &[u8], row: &[(u8, u8)]) -> bool
    ensures { result ≡ all_within row.now s.now }
{
    row.iter().zip(s).all(|((lo, hi), b)| lo <= b && b <= hi)
}

// The text begins with a byte of each range, one after the other.
#[tactic(auto, using(crate::proofs::RangesAdmit::admits_each, crate::proofs::RangesAdmit::admits_short))]
fn begins_as<const N: usize>(s: &[u8], row: [(u8, u8); N]) -> bool
    ensures { result ≡ admits (ranges_of row.entry) s.now }
{
    N <= s.len() && all_within(s, &row)
}

// The text begins with a surrogate.
pub fn surrogate_at(s: &[u8]) -> bool
    ensures { result ≡ admits surrogate s.now }
{
    begins_as(s, SURROGATE)
}

// The length by the rows that an encoding has besides the table.
#[tactic(auto, unfolding(crate::specs::Utf8::length_by))]
fn length_besides(s: &[u8], encoding: Encoding) -> usize
    ensures { result ≡ length_by (besides encoding) s.now }
{
    match encoding {
        Encoding::Wtf8 if !begins_as(s, PAIR) && begins_as(s, SURROGATE) => SURROGATE.len(),
        _ => 0,
    }
}

// The length in bytes of the character that the text begins with, by the rows from the first on; 0 where none of them admits it.
#[tactic(auto, using(crate::proofs::ByRows::measured), unfolding(crate::specs::Utf8::length_by, crate::specs::Utf8::char_length))]
pub fn char_length(s: &[u8], encoding: Encoding) -> usize
    ensures { Meant (result ≡ char_length encoding s.now) (ByRows encoding s.now result) }
{
    if begins_as(s, [(0x00, 0x7F)]) {
        1
    } else if begins_as(s, [(0xC2, 0xDF), CONTINUATION]) {
        2
    } else if begins_as(s, [(0xE0, 0xE0), (0xA0, 0xBF), CONTINUATION])
        || begins_as(s, [(0xE1, 0xEC), CONTINUATION, CONTINUATION])
        || begins_as(s, [(0xED, 0xED), (0x80, 0x9F), CONTINUATION])
        || begins_as(s, [(0xEE, 0xEF), CONTINUATION, CONTINUATION])
    {
        3
    } else if begins_as(s, [(0xF0, 0xF0), (0x90, 0xBF), CONTINUATION, CONTINUATION])
        || begins_as(s, [(0xF1, 0xF3), CONTINUATION, CONTINUATION, CONTINUATION])
        || begins_as(s, [(0xF4, 0xF4), (0x80, 0x8F), CONTINUATION, CONTINUATION])
    {
        4
    } else {
        length_besides(s, encoding)
    }
}

// The code point of the first `n` bytes.
#[tactic(auto, unfolding(crate::specs::Utf8::code_by))]
fn code_at(s: &[u8], n: usize) -> u32
    ensures { result ≡ code_by n s.now }
{
    let a = byte_at(s, 0);
    if n == 1 {
        return a;
    }
    let b = byte_at(s, 1) % 64;
    if n == 2 {
        return a % 32 * 64 + b;
    }
    let c = byte_at(s, 2) % 64;
    if n == 3 {
        return a % 16 * 4096 + b * 64 + c;
    }
    let d = byte_at(s, 3) % 64;
    if n == 4 {
        return a % 8 * 262144 + b * 4096 + c * 64 + d;
    }
    0
}

// The character that the text begins with.
#[tactic(auto, unfolding(crate::specs::Utf8::char_at))]
pub fn char_at(s: &[u8], encoding: Encoding) -> Char
    ensures { result ≡ char_at encoding s.now }
{
    let len = char_length(s, encoding);
    let code = code_at(s, len);
    Char { len, code }
}

// The place 8 bytes on, or the end.
fn block_end(s: &[u8], at: usize) -> usize
    requires { at < length s.now }
    ensures { (at < result) × (result ≤ length s.now) }
{
    s.len().min(at + 8)
}

// Character by character from `at` to `stop` or past it; a place before `stop` is one where no character stands.
fn run_to(s: &[u8], at: usize, stop: usize, encoding: Encoding) -> usize
    requires { (at ≤ stop) × (stop ≤ length s.now) }
    ensures { (formed encoding 0 (drop at s.now) ≡ formed encoding 0 (drop result s.now))
        × (result ≤ length s.now)
        × (result < stop → formed encoding 0 (drop result s.now) ≡ false) }
{
    let mut i = at;
    while i < stop {
        if s[i] < 128 {
            i += 1;
        } else {
            let n = char_length(&s[i..], encoding);
            if n == 0 {
                return i;
            }
            i += n;
        }
    }
    i
}

// The whole of `s` is one character after the other: the text of a row of code points.
pub fn well_formed(s: &[u8], encoding: Encoding) -> bool
    ensures { Meant (result ≡ well_formed encoding s.now) (Judges encoding s.now result) }
{
    let mut at = 0;
    while at < s.len() {
        if all_in_block::<32, _>(&s[at..], |b| b < 128) {
            at += 32;
        } else if all_in_block::<8, _>(&s[at..], |b| b < 128) {
            at += 8;
        } else {
            let stop = block_end(s, at);
            let r = run_to(s, at, stop, encoding);
            if r < stop {
                return false;
            }
            at = r;
        }
    }
    true
}
