// Whether a text in WTF-8 has a surrogate.
ghost use Rattle.std.specs.Prelude.{◌≡◌, List, ℕ};
ghost use Rattle.laws.specs.code.Told.{Meant};
ghost use Rattle.text.specs.declared.utf8.Encoding.TheVariants.{Wtf8};
ghost use Rattle.text.specs.WellFormed.{TextOf};
ghost use Rattle.text.specs.Lossy.{exact, LossyOf};

use super::utf8::surrogate_at;

// Has the text no surrogate? Of a text in WTF-8 that is so where none is among its code points.
pub fn is_exact(s: &[u8]) -> bool
    ensures { Meant (result ≡ exact s.now)
        ((points : List ℕ) → TextOf Wtf8 points s.now → LossyOf points s.now) }
{
    (0..s.len()).all(|i| !surrogate_at(&s[i..]))
}
