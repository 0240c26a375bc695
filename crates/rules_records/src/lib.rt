// Demand 3 down to the records that the tablet's functions take and return: the statements, over the functions' contracts. No code.
#![tactic(auto)]
