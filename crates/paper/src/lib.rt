// Documents 01 and 02 as definitions. No code: specs/ is the text, and the crate `conformance` shows that the entries do what it says.
#![tactic(auto)]
