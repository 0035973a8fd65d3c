// Bytes by a test, a block of them at a time.
ghost use Rattle.std.specs.Prelude.{◌≡◌, true, ◌≤◌, ◌<◌, length};
ghost use Rattle.text.specs.code.Places.{Counts, AllPass, Passed, Skips};

// How many bytes of the block pass. The counter has one byte, so that the loop becomes vector code: `filter` and `count` take 13 times as long.
pub fn count_in<F: Fn(u8) -> bool>(block: &[u8], test: F) -> u8
    requires callable { F.IsAlwaysCallable test }
    requires short { length block.now < 256 }
    ensures { Counts (F.post test) block.now result }
{
    let mut n: u8 = 0;
    for b in block {
        if test(*b) {
            n += 1;
        }
    }
    n
}

// Does the text begin with N bytes that pass?
pub fn all_in_block<const N: usize, F: Fn(u8) -> bool>(s: &[u8], test: F) -> bool
    requires callable { F.IsAlwaysCallable test }
    requires short { N < 256 }
    ensures { result ≡ true → (N ≤ length s.now) × AllPass (F.post test) s.now N }
{
    N <= s.len() && count_in(&s[..N], test) == N as u8
}

// The place past the blocks of 32 bytes that all pass, from `at` on.
pub(crate) fn skip_blocks<F: Fn(u8) -> bool>(s: &[u8], at: usize, test: &F) -> usize
    requires callable { F.IsAlwaysCallable test.now }
    requires place { at ≤ length s.now }
    ensures { Passed (F.post test.now) s.now at result }
{
    let mut i = at;
    while all_in_block::<32, &F>(&s[i..], test) {
        i += 32;
    }
    i
}

// The first place from `at` on whose byte does not pass, or the end.
pub fn skip_while<F: Fn(u8) -> bool>(s: &[u8], at: usize, test: F) -> usize
    requires callable { F.IsAlwaysCallable test }
    requires place { at ≤ length s.now }
    ensures { Skips (F.post test) s.now at result }
{
    for i in skip_blocks(s, at, &test)..s.len() {
        if !test(s[i]) {
            return i;
        }
    }
    s.len()
}
