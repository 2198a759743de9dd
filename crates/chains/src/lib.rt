// Chains of A6 records: no code, the meaning and what is true of it (specs/ and proofs/).
#![tactic(auto)]
