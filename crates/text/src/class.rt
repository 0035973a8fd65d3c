// Classes of characters: those that the patterns and the grammar of JSDoc imports name.
ghost use Rattle.std.specs.Prelude.{◌≡◌, ◌+◌, ◌≤◌, length, drop};
ghost use Rattle.laws.specs.code.Told.{Bounded};
ghost use Rattle.text.specs.Class.{member, length_if, run_if, class_at, run_length};
ghost use Rattle.text.specs.code.Tests.{ByTest};

use super::alphabetic::is_alphabetic;
use super::utf8::{Encoding, char_at};
use super::white_space::is_white_space;

#[derive(Clone, Copy, Debug, PartialEq, Eq)]
pub enum Class {
    White,
    NotWhite,
    WhiteOrStar,
    NotLf,
    Quote,
    NotQuote,
    SourceMark,
    Alphabetic,
    NameRest,
}

// Is the code point of the class?
#[tactic(auto, using(crate::proofs::Members::one_within), unfolding(crate::specs::Ranges::in_ranges, crate::specs::Class::ranges, crate::specs::Class::outside, crate::specs::Class::member))]
pub fn in_class(class: Class, code: u32) -> bool
    ensures { result ≡ member class code }
{
    match class {
        Class::White => is_white_space(code),
        Class::NotWhite => !is_white_space(code),
        Class::WhiteOrStar => code == 0x2A || is_white_space(code),
        Class::NotLf => code != 0x0A,
        Class::Quote => matches!(code, 0x22 | 0x27),
        Class::NotQuote => !matches!(code, 0x22 | 0x27),
        Class::SourceMark => matches!(code, 0x23 | 0x40),
        Class::Alphabetic => is_alphabetic(code),
        Class::NameRest => !matches!(code, 0x2D | 0x3A) && !is_white_space(code),
    }
}

// The same for a character of any length. Not inlined, so that a run of ASCII is a small loop.
#[inline(never)]
fn wide_length_if<F: Fn(u32) -> bool>(s: &[u8], test: &F) -> usize
    requires callable { F.IsAlwaysCallable test.now }
    ensures { Bounded (ByTest (F.post test.now) λ p. result ≡ length_if p s.now) (result ≤ length s.now) }
{
    let c = char_at(s, Encoding::Utf8);
    if test(c.code) { c.len } else { 0 }
}

// The length in bytes of the character that the text begins with and whose code point passes, 0 where none stands there.
#[inline(always)]
fn length_if<F: Fn(u32) -> bool>(s: &[u8], test: &F) -> usize
    requires callable { F.IsAlwaysCallable test.now }
    ensures { Bounded (ByTest (F.post test.now) λ p. result ≡ length_if p s.now) (result ≤ length s.now) }
{
    match s {
        [b, ..] if *b < 0x80 => usize::from(test(u32::from(*b))),
        _ => wide_length_if(s, test),
    }
}

// The end of the longest run of ASCII that passes, from `at` on: the rest of the run of any characters begins there.
#[inline(always)]
fn ascii_end_if<F: Fn(u32) -> bool>(s: &[u8], at: usize, test: &F) -> usize
    requires callable { F.IsAlwaysCallable test.now }
    requires place { at ≤ length s.now }
    ensures rest { ByTest (F.post test.now) λ p. at + run_if p 0 (drop at s.now) ≡ result + run_if p 0 (drop result s.now) }
    ensures place { (at ≤ result) × (result ≤ length s.now) }
{
    let mut i = at;
    while i < s.len() && s[i] < 0x80 && test(u32::from(s[i])) {
        i += 1;
    }
    i
}

// The end of the longest run of characters that pass, from `at` on.
pub fn run_end_if<F: Fn(u32) -> bool>(s: &[u8], at: usize, test: &F) -> usize
    requires callable { F.IsAlwaysCallable test.now }
    requires place { at ≤ length s.now }
    ensures { Bounded (ByTest (F.post test.now) λ p. result ≡ at + run_if p 0 (drop at s.now)) ((at ≤ result) × (result ≤ length s.now)) }
{
    let mut i = at;
    loop {
        i = ascii_end_if(s, i, test);
        let n = length_if(&s[i..], test);
        if n == 0 {
            return i;
        }
        i += n;
    }
}

// The length in bytes of the character of the class that the text begins with, 0 where none stands there.
#[tactic(auto, unfolding(crate::specs::Class::class_at))]
#[inline(always)]
pub fn class_at(s: &[u8], class: Class) -> usize
    ensures { Bounded (result ≡ class_at class s.now) (result ≤ length s.now) }
{
    length_if(s, &move |code| in_class(class, code))
}

// The end of the longest run of the class from `at` on.
#[tactic(auto, unfolding(crate::specs::Class::run))]
pub fn run_end(s: &[u8], at: usize, class: Class) -> usize
    requires { at ≤ length s.now }
    ensures { Bounded (result ≡ at + run_length class (drop at s.now)) (result ≤ length s.now) }
{
    run_end_if(s, at, &move |code| in_class(class, code))
}
