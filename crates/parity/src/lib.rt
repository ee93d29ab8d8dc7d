// Laws of XOR, of sums and counts over a range, of numbers and polynomials modulo an odd prime, and of periodic functions. No code: specs/ has the definitions, proofs/ the laws.
#![tactic(auto)]
