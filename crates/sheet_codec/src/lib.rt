// The sheet encoded, and what is asked of it; see specs/ and proofs/. No code.
#![tactic(auto)]
