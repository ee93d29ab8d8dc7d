// How far codewords are apart, and how many erasures that allows. No code: specs/ has the definitions, proofs/ the laws.
#![tactic(auto)]
