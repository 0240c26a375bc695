// Decimal numerals of any digit count: order, value within a limit, printing.
#![tactic(auto)]

pub mod bounded; // The value of a decimal numeral of any digit count, where it is bounded.
pub mod counts; // The digits that a text begins with.
pub mod digits; // Byte strings of digits.
pub mod order; // The order of decimal numerals of any digit count, by their digits.
pub mod printing; // Numbers in decimal, without leading zeros.
pub mod zeros; // Decimal numerals of any digit count: the zeros that one begins with.
