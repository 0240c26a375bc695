// Proofs of what rules_records states of the records that the tablet's functions take and return. No code.
#![tactic(auto)]
