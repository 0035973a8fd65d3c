// The characters of Alphabetic: those of Rust's `char::is_alphabetic`.
ghost use Rattle.std.specs.Prelude.{◌≡◌};
ghost use Rattle.text.specs.Ranges.{in_ranges};
ghost use Rattle.text.specs.Alphabetic.{alphabetic};

use super::alphabetic_bounds::BOUNDS;
use super::ranges::in_table;

// Is the code point Alphabetic? ASCII needs no table.
#[tactic(auto, using(crate::proofs::AsciiRanges::letters))]
pub fn is_alphabetic(code: u32) -> bool
    ensures { result ≡ in_ranges alphabetic code }
{
    if code < 0x80 {
        return matches!(code, 0x41..=0x5A | 0x61..=0x7A);
    }
    in_table(&BOUNDS, code)
}
