// What a declaration imports: `{A, B}`, `* as N` or `A`.
ghost use Rattle.std.specs.Prelude.{◌≡◌};
ghost use Rattle.jsdoc.specs.Reader.{skip_named_imports, skip_default_import, skip_namespace_import, skip_clause};
ghost use Rattle.jsdoc.specs.code.Answers.{rest_as};

use super::pieces::{tag, up_to, whitespace, word};
use super::quote::parse_ident;

#[tactic(auto, unfolding(crate::specs::Reader::skip_named_imports))]
fn skip_named_imports(s: &[u8]) -> Option<&[u8]>
    ensures { rest_as result ≡ skip_named_imports s.now }
{
    let s = tag(s, b"{")?;
    up_to(s, b'}')
}

#[tactic(auto, unfolding(crate::specs::Reader::skip_default_import))]
fn skip_default_import(s: &[u8]) -> Option<&[u8]>
    ensures { rest_as result ≡ skip_default_import s.now }
{
    let (_, s) = parse_ident(s)?;
    whitespace(s)
}

#[tactic(auto, unfolding(crate::specs::Reader::skip_namespace_import))]
fn skip_namespace_import(s: &[u8]) -> Option<&[u8]>
    ensures { rest_as result ≡ skip_namespace_import s.now }
{
    let s = word(s, b"*")?;
    let s = tag(s, b"as")?;
    let s = whitespace(s)?;
    skip_default_import(s)
}

// Past the clause.
#[tactic(auto, unfolding(crate::specs::Reader::skip_clause))]
pub fn skip_clause(s: &[u8]) -> Option<&[u8]>
    ensures { rest_as result ≡ skip_clause s.now }
{
    skip_named_imports(s)
        .or_else(|| skip_namespace_import(s))
        .or_else(|| skip_default_import(s))
}
