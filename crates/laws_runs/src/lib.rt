// Laws of sorted maximal runs (RunLaws of rules_tablet), and of spans of positions, which specs/ defines. No code.
#![tactic(auto)]
