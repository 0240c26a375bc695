// The definitions beside literal tables: limits, classes of bytes, texts, numbers, rules, answers. No code.
#![tactic(auto)]
