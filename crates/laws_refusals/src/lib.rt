// Acceptable answers and refusals 11 to 17, exactly when. No code.
#![tactic(auto)]
