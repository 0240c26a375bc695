// A saved copy (SavedRefusals of rules_demands): what is written is read back, and what bytes are read as agrees with the table of refusals. No code.
#![tactic(auto)]
