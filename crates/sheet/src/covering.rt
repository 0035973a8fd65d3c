// Whether each comment is in some group, in one pass over the groups and one over the comments.
ghost use Rattle.std.specs.Prelude.{◌≡◌, cond, ℕ, ◌<◌, max, eqb, length, get_or};
ghost use Rattle.laws.specs.code.Left.{Free};
ghost use Rattle.laws.specs.code.Told.{Leaving};
ghost use Rattle.sheet.specs.Comments.{covered};
ghost use Rattle.sheet.specs.code.Tables.{groups_in};
ghost use Rattle.sheet.specs.code.Covering.{longest_at};

use super::groups::GroupRow;

// Keeps the count at a place, if there is one, unless a larger one stands there.
fn raise(longest: &mut [u32], at: usize, count: u32)
    ensures { (i : ℕ) → i < length longest.old → get_or longest.new i 0
        ≡ max (get_or longest.old i 0) (cond (eqb at i) count 0) }
{
    if at < longest.len() && longest[at] < count {
        longest[at] = count;
    }
}

// Keeps for each comment how many the longest group has that begins there.
fn keep_longest(groups: &[GroupRow], longest: &mut [u32])
    ensures { (i : ℕ) → i < length longest.old → get_or longest.new i 0
        ≡ max (get_or longest.old i 0) (longest_at (groups_in groups.now) i) }
{
    for row in groups {
        raise(longest, row.first as usize, row.count);
    }
}

// Is each comment in some group? `longest`, with a number for each comment, is lent to work in, and left free.
pub fn is_covered(groups: &[GroupRow], longest: &mut [u32]) -> bool
    ensures { Leaving
        (result ≡ covered (groups_in groups.now) (length longest.old))
        (Free longest.old longest.new) }
{
    longest.fill(0);
    keep_longest(groups, longest);
    let mut far = 0;
    for (i, count) in longest.iter().enumerate() {
        far = far.max(i + *count as usize);
        if far <= i {
            return false;
        }
    }
    true
}
