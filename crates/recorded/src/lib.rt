// What the viewer shows over a whole recording. No code: coverage claims it, the session shows demand 3, and proofs/ puts the two together.
#![tactic(auto)]
