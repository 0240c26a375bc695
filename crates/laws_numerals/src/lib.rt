// Laws of decimal numerals of any digit count (NumeralLaws of rules_server): their values, their order by digits, and the digits of a printed number. No code.
#![tactic(auto)]
