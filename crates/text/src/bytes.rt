// Bytes by their places in a text.
ghost use Rattle.std.specs.Prelude.{◌≡◌, ℕ, ◌+◌, ◌<◌, ◌≤◌, length, get_or, MatchOption, ◌==◌};
ghost use Rattle.laws.specs.code.Told.{Bounded};
ghost use Rattle.text.specs.code.Places.{Passing, First, Before};

use super::blocks::{skip_blocks, skip_while};
use std::simd::prelude::*;

// So many bytes are looked at one by one.
const NEAR: usize = 8;

// The byte at a place, 0 past the end.
pub fn byte_at(s: &[u8], i: usize) -> u32
    ensures { Bounded (result ≡ get_or s.now i 0) (result < 256) }
{
    s.get(i).map_or(0, |b| *b as u32)
}

// How many of 32 bytes from `at` on stand before the first `b`.
#[inline(always)]
fn before_in_block(s: &[u8], at: usize, b: u8) -> usize
    requires { at + 32 ≤ length s.now }
    ensures { Before (λ x. x == b) s.now at 32 result }
{
    let found = u8x32::from_slice(&s[at..])
        .simd_eq(u8x32::splat(b))
        .to_bitmask();
    if found == 0 {
        32
    } else {
        found.trailing_zeros() as usize
    }
}

// The first place of `b` from `at` on. The nearest bytes are looked at one by one: where the marks stand close to each other, a branch for each is
// foretold, and a place that is counted out of a mask is waited for.
pub fn next_of(s: &[u8], at: usize, b: u8) -> Option<usize>
    requires { at ≤ length s.now }
    ensures { MatchOption result (First b s.now at (length s.now))
        (λ k. First b s.now at k × (k < length s.now)) }
{
    let mut i = at;
    if NEAR <= s.len() - at {
        for k in at..at + NEAR {
            if s[k] == b {
                return Some(k);
            }
        }
        i = at + NEAR;
    }
    while 32 <= s.len() - i {
        let k = before_in_block(s, i, b);
        if k < 32 {
            return Some(i + k);
        }
        i = skip_blocks(s, i + 32, &|x| x != b);
    }
    for k in i..s.len() {
        if s[k] == b {
            return Some(k);
        }
    }
    None
}

// The first place from `at` on of what is not 0, or the end.
pub fn next_nonzero(s: &[u8], at: usize) -> usize
    requires { at ≤ length s.now }
    ensures { Passing (λ k. get_or s.now k 0 ≡ 0) at (length s.now) result }
{
    skip_while(s, at, |x| x == 0)
}
