// Theorems about the server's definitions; their statements stand in rules_demands. No code.
#![tactic(auto)]
