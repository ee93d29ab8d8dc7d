// What each entry promises is what `paper` asks. No code: `paper` has the definitions, proofs/ the laws.
#![tactic(auto)]
