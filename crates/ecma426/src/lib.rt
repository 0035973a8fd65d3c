// The comment that names a source map, as ECMA-426 has it.
#![tactic(auto)]

ghost use Rattle.std.specs.Prelude.{◌≡◌, true, ◌↔◌, ◌≤◌, length};
ghost use Rattle.laws.specs.code.Told.{Bounded, Meant};
ghost use Rattle.analysis.specs.Place.{FoundWithin};
ghost use Rattle.ecma426.specs.WhiteSpace.{is_space, ByUnicode};
ghost use Rattle.ecma426.specs.Grammar.{FindsMap};
ghost use Rattle.ecma426.specs.Reader.{marked, find_source_map};

use analysis::Capture;
use text::class::run_end_if;
use text::white_space::is_white_space;

// What stands before the URL.
const WORD: [u8; 17] = *b"sourceMappingURL=";

// Does ECMAScript's `\s` match the code point? It is White_Space without U+0085, and U+FEFF.
pub fn is_space(code: u32) -> bool
    ensures { Meant (result ≡ is_space code) ((result ≡ true) ↔ ByUnicode code) }
{
    match code {
        0xFEFF => true,
        0x85 => false,
        _ => is_white_space(code),
    }
}

// Does the body begin with `#` or `@`?
#[tactic(auto, using(text::proofs::Words::begins_is))]
fn is_marked(body: &[u8]) -> bool
    ensures { result ≡ marked body.now }
{
    body.starts_with(b"#") || body.starts_with(b"@")
}

// ^[#@]\s*sourceMappingURL=(\S*)\s*$ in ECMAScript's regular expressions. The word is compared byte by byte, its case too.
#[tactic(auto, using(crate::proofs::Agrees::answers_as), unfolding(crate::specs::Reader::row_end))]
pub fn find_source_map(body: &[u8]) -> Option<Capture>
    ensures { Bounded (Meant (result ≡ find_source_map body.now) (FindsMap body.now result))
        (FoundWithin result (length body.now)) }
{
    if !is_marked(body) {
        return None;
    }
    let at = run_end_if(body, 1, &is_space);
    if !body[at..].starts_with(&WORD) {
        return None;
    }
    let from = at + WORD.len();
    let to = run_end_if(body, from, &|code| !is_space(code));
    if run_end_if(body, to, &is_space) == body.len() {
        Some(Capture {
            quoted: false,
            from,
            to,
        })
    } else {
        None
    }
}
