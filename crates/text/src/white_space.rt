// The characters of White_Space.
ghost use Rattle.std.specs.Prelude.{◌≡◌};
ghost use Rattle.text.specs.Ranges.{in_ranges};
ghost use Rattle.text.specs.WhiteSpace.{white_space};

use super::ranges::in_table;

// The bounds of the ranges: even places start a range, odd places end it; the end is not in it.
const BOUNDS: [u32; 20] = [
    0x0009, 0x000E, 0x0020, 0x0021, 0x0085, 0x0086, 0x00A0, 0x00A1, 0x1680, 0x1681, 0x2000, 0x200B,
    0x2028, 0x202A, 0x202F, 0x2030, 0x205F, 0x2060, 0x3000, 0x3001,
];

// Is the code point White_Space? ASCII needs no table.
#[tactic(auto, using(crate::proofs::AsciiRanges::blanks))]
pub fn is_white_space(code: u32) -> bool
    ensures { result ≡ in_ranges white_space code }
{
    if code < 0x80 {
        return matches!(code, 0x09..=0x0D | 0x20);
    }
    in_table(&BOUNDS, code)
}
