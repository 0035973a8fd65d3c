// What the patterns share: words, values, and the patterns that differ in a word alone.
ghost use Rattle.std.specs.Prelude.{◌≡◌, ◌+◌, ◌≤◌, length, drop};
ghost use Rattle.laws.specs.code.Told.{Bounded};
ghost use Rattle.analysis.specs.Letters.{fold_case, letter_at, word_at};
ghost use Rattle.analysis.specs.Row.{one_at, match_at, find, is_found};
ghost use Rattle.analysis.specs.code.Matcher.{assigned_at, EndsBy, BeginsWithAtSign};
ghost use Rattle.analysis.specs.Place.{FoundWithin};
ghost use Rattle.analysis.specs.Patterns.{quoted, quoted_some, bare, reference_end, attribute_row, jsx_row, pragma_row};

use super::Capture;
use text::class::{Class, class_at, run_end};
use text::utf8::{Encoding, char_at};

// A code point without its case, as far as it meets an ASCII letter.
#[tactic(auto, unfolding(crate::specs::Letters::fold_case))]
fn fold_case(code: u32) -> u32
    ensures { result ≡ fold_case code }
{
    match code {
        0x41..=0x5A => code + 0x20,
        0x17F => 0x73,
        0x212A => 0x6B,
        _ => code,
    }
}

// The same as `letter_at`, by the rows of characters.
#[tactic(auto, unfolding(crate::specs::Letters::letter_at))]
fn wide_letter_at(s: &[u8], letter: u8) -> usize
    ensures { Bounded (result ≡ letter_at letter s.now) (result ≤ length s.now) }
{
    let c = char_at(s, Encoding::Utf8);
    if fold_case(c.code) == fold_case(u32::from(letter)) {
        c.len
    } else {
        0
    }
}

// The length in bytes of the letter, whatever its case, that the text begins with, 0 where there is none.
#[tactic(auto, using(crate::proofs::Spelling::ascii_letter))]
#[inline(always)]
fn letter_at(s: &[u8], letter: u8) -> usize
    ensures { Bounded (result ≡ letter_at letter s.now) (result ≤ length s.now) }
{
    match s {
        [b, ..] if *b < 0x80 => {
            let same = fold_case(u32::from(*b)) == fold_case(u32::from(letter));
            usize::from(same)
        }
        _ => wide_letter_at(s, letter),
    }
}

// Where the character of the class ends that stands at `at`.
#[inline(always)]
pub fn one_at(s: &[u8], at: usize, class: Class) -> Option<usize>
    requires { at ≤ length s.now }
    ensures { Bounded (result ≡ one_at class s.now at) (EndsBy result (length s.now)) }
{
    let n = class_at(&s[at..], class);
    if n == 0 {
        return None;
    }
    Some(at + n)
}

// Where the word ends that begins at `at`, letter by letter.
#[tactic(auto, using(crate::proofs::Spelling::word_misses, crate::proofs::Spelling::word_goes_on, crate::proofs::Spelling::word_ends))]
#[inline(always)]
pub fn match_word(s: &[u8], at: usize, word: &[u8]) -> Option<usize>
    requires { at ≤ length s.now }
    ensures { Bounded (result ≡ word_at word.now s.now at) (EndsBy result (length s.now)) }
{
    let mut i = at;
    for letter in word {
        let n = letter_at(&s[i..], *letter);
        if n == 0 {
            return None;
        }
        i += n;
    }
    Some(i)
}

// Where the value begins behind a word and `\s*=\s*`.
#[tactic(auto, unfolding(crate::specs::code::Matcher::assigned_at))]
pub fn assigned_at(s: &[u8], at: usize, word: &[u8]) -> Option<usize>
    requires { at ≤ length s.now }
    ensures { Bounded (result ≡ assigned_at word.now s.now at) (EndsBy result (length s.now)) }
{
    let a = match_word(s, at, word)?;
    let b = run_end(s, a, Class::White);
    let d = match_word(s, b, b"=")?;
    Some(run_end(s, d, Class::White))
}

// ["']([^"']*)["']
#[tactic(auto, using(crate::proofs::RowSteps::quoted_row), unfolding(crate::specs::Row::first))]
#[inline(always)]
pub fn quoted_at(s: &[u8], at: usize) -> Option<Capture>
    requires { at ≤ length s.now }
    ensures { Bounded (result ≡ match_at quoted s.now at) (FoundWithin result (length s.now)) }
{
    let from = one_at(s, at, Class::Quote)?;
    let to = run_end(s, from, Class::NotQuote);
    one_at(s, to, Class::Quote)?;
    Some(Capture {
        quoted: true,
        from,
        to,
    })
}

// ["']([^"']+)["']
#[tactic(auto, using(crate::proofs::RowSteps::quoted_some_row), unfolding(crate::specs::Row::first))]
pub fn quoted_some_at(s: &[u8], at: usize) -> Option<Capture>
    requires { at ≤ length s.now }
    ensures { Bounded (result ≡ match_at quoted_some s.now at) (FoundWithin result (length s.now)) }
{
    quoted_at(s, at).filter(|found| found.from < found.to)
}

// (\S+)
#[tactic(auto, using(crate::proofs::RowSteps::bare_row), unfolding(crate::specs::Row::first))]
pub fn bare_at(s: &[u8], at: usize) -> Option<Capture>
    requires { at ≤ length s.now }
    ensures { Bounded (result ≡ match_at bare s.now at) (FoundWithin result (length s.now)) }
{
    let first = one_at(s, at, Class::NotWhite)?;
    let to = run_end(s, first, Class::NotWhite);
    Some(Capture {
        quoted: false,
        from: at,
        to,
    })
}

// .*?/>
#[tactic(auto, using(crate::proofs::RowSteps::reference_hit, crate::proofs::RowSteps::reference_stop, crate::proofs::RowSteps::reference_goes_on))]
pub fn reference_ends(s: &[u8], at: usize) -> bool
    requires { at ≤ length s.now }
    ensures { result ≡ is_found (match_at reference_end s.now at) }
{
    let mut i = at;
    loop {
        if match_word(s, i, b"/>").is_some() {
            return true;
        }
        let Some(next) = one_at(s, i, Class::NotLf) else {
            return false;
        };
        i = next;
    }
}

// \sWORD\s*=\s*["']([^"']*)["']
#[tactic(auto, using(crate::proofs::RowSteps::attribute_row_lem), unfolding(crate::specs::Row::first, crate::specs::Row::match_at))]
#[inline(always)]
fn attribute_at(s: &[u8], at: usize, word: &[u8]) -> Option<Capture>
    requires { at ≤ length s.now }
    ensures { Bounded (result ≡ match_at (attribute_row word.now) s.now at)
        (FoundWithin result (length s.now)) }
{
    let a = one_at(s, at, Class::White)?;
    let b = assigned_at(s, a, word)?;
    quoted_at(s, b)
}

// The leftmost of these.
pub fn find_attribute(body: &[u8], word: &[u8]) -> Option<Capture>
    ensures { Bounded (result ≡ find (attribute_row word.now) body.now)
        (FoundWithin result (length body.now)) }
{
    (0..body.len()).find_map(|at| attribute_at(body, at, word))
}

// ^[\s*]*WORD\s+(\S+), the word beginning with @
#[tactic(auto, using(crate::proofs::RowSteps::jsx_row_lem), unfolding(crate::specs::Row::first, crate::specs::Row::match_at))]
pub fn find_jsx(body: &[u8], word: &[u8]) -> Option<Capture>
    requires { BeginsWithAtSign word.now }
    ensures { Bounded (result ≡ find (jsx_row word.now) body.now)
        (FoundWithin result (length body.now)) }
{
    let a = run_end(body, 0, Class::WhiteOrStar);
    let b = match_word(body, a, word)?;
    let e = one_at(body, b, Class::White)?;
    let d = run_end(body, e, Class::White);
    bare_at(body, d)
}

// ^\s*WORD\s*=\s*["']([^"']+)["'], the word beginning with @
#[tactic(auto, using(crate::proofs::RowSteps::pragma_row_lem), unfolding(crate::specs::Row::first, crate::specs::Row::match_at))]
pub fn find_pragma(body: &[u8], word: &[u8]) -> Option<Capture>
    requires { BeginsWithAtSign word.now }
    ensures { Bounded (result ≡ find (pragma_row word.now) body.now)
        (FoundWithin result (length body.now)) }
{
    let a = run_end(body, 0, Class::White);
    let b = assigned_at(body, a, word)?;
    quoted_some_at(body, b)
}
