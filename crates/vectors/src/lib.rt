// The bench values P1 to P10 (RULES 8), shown of the definitions. No code: specs/ has the table, proofs/ shows it.
#![tactic(auto)]
