// Ranges of numbers: a table of their bounds.
ghost use Rattle.std.specs.Prelude.{◌≡◌, List};
ghost use Rattle.text.specs.Ranges.{Range, in_ranges, bounds, Ascending, Split};

// How many of the bounds in `a` are at most `x`.
fn at_most(a: &[u32], x: u32) -> usize
    requires { Ascending a.now }
    ensures { Split a.now x result }
{
    a.partition_point(|bound| *bound <= x)
}

// Does `x` lie in one of the ranges whose bounds are in `a`?
pub fn in_table(a: &[u32], x: u32) -> bool
    requires { Ascending a.now }
    ensures { (rs : List Range) → a.now ≡ bounds rs → result ≡ in_ranges rs x }
{
    at_most(a, x) % 2 == 1
}
