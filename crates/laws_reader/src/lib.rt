// The parser and feeding: our answers followed, foreign ones quiet, rules kept, bulk. No code.
#![tactic(auto)]
