// Demand 3 over a list of calls; two answers complete. No code.
#![tactic(auto)]
