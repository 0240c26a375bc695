// The statements: demands 1 to 3, acceptable answers, refusals 11 to 17. No code.
#![tactic(auto)]
