// `Option<TypeScriptTypesResolutionMode>`, and document 01's number of each.
ghost use Rattle.std.specs.Prelude.{◌≡◌};
ghost use Rattle.analysis.specs.Mode.{mode_number, mode_of};

#[derive(Clone, Copy, Debug, PartialEq, Eq, Hash)]
pub enum TypeScriptTypesResolutionMode {
    Import = 1,
    Require = 2,
}

// The mode that a text names.
#[tactic(auto, using(text::proofs::Words::same_is), unfolding(crate::specs::Mode::mode_of))]
pub fn from_str(text: &[u8]) -> Option<TypeScriptTypesResolutionMode>
    ensures { result ≡ mode_of text.now }
{
    if text == b"import".as_slice() {
        return Some(TypeScriptTypesResolutionMode::Import);
    }
    if text == b"require".as_slice() {
        return Some(TypeScriptTypesResolutionMode::Require);
    }
    None
}

pub fn mode_number(found: Option<TypeScriptTypesResolutionMode>) -> u8
    ensures { result ≡ mode_number found }
{
    found.map_or(0, |mode| mode as u8)
}
