// Arrivals of words that were restored first. No code: specs/ has the definitions, proofs/ puts the nearest codeword, restoring and demand 3 together.
#![tactic(auto)]
