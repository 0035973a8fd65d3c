// The texts of Names and Strings that the walk tells apart.
ghost use Rattle.std.specs.Prelude.{◌≡◌};
ghost use Rattle.laws.specs.Ascii.{ascii};
ghost use Rattle.text.specs.Bytes.{same};
ghost use Rattle.sheet.specs.Shape.{is_augmentation, is_relative, has_star};

// The Name `require`.
#[tactic(auto, using(text::proofs::Words::same_is))]
pub fn is_require(name: &[u8]) -> bool
    ensures { result ≡ same name.now (ascii "require") }
{
    name == b"require".as_slice()
}

fn has_star(x: &[u8]) -> bool
    ensures { result ≡ has_star x.now }
{
    x.contains(&b'*')
}

// Does a text start with `./`, `../` or `/`?
#[tactic(auto, using(text::proofs::Words::begins_is))]
pub fn is_relative(x: &[u8]) -> bool
    ensures { result ≡ is_relative x.now }
{
    x.starts_with(b"./") || x.starts_with(b"../") || x.starts_with(b"/")
}

// A module declaration's text gives an entry unless it is a wildcard that is not relative.
pub fn is_augmentation(x: &[u8]) -> bool
    ensures { result ≡ is_augmentation x.now }
{
    !has_star(x) || is_relative(x)
}
