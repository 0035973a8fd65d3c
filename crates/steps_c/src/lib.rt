// The matcher of rows for C.
#![tactic(auto)]

ghost use Rattle.std.specs.Prelude.{◌≡◌};
ghost use Rattle.steps.specs.Answers.{Answer, Stepped, words_of};

// Its answer is four numbers: 0 where nothing is found; 1, 1 if it stands in marks, from where, to where; or 2, and what is wrong.
#[unsafe(no_mangle)]
pub extern "C" fn steps_match(table: &[u8], body: &[u8], out: &mut [u64; 4])
    ensures { (a : Answer) × Stepped table.now body.now a × (out.new ≡ words_of a) }
{
    steps::steps_match(table, body, out)
}
