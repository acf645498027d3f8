// No code: specs/ has the definition of the comparison and of the check, proofs/ what holds over a chain of accepted records.
#![tactic(auto)]
