// Bytes: blanks, digits and their values, and the fixed strings.
#![tactic(auto)]

pub mod any_case; // Byte strings that are the same in any case of letters.
pub mod blanks; // The spaces and tabs at the ends of a byte string.
pub mod blocks; // Blocks of bytes: each fold looks at every byte, so that many are tested at once.
pub mod numbers; // Numbers in bytes, the most significant first.
pub mod overwrites; // Bytes put over others.
pub mod prefixes; // The front of a byte string.
pub mod searches; // The place of a byte in a byte string.
pub mod sizes; // Sizes: the smaller of two, and how many bytes come before a multiple of 16.
pub mod strings; // Byte strings: the same bytes.
pub mod texts;

ghost use Rattle.std.specs.Prelude.{◌≡◌};
ghost use Rattle.rules_server.specs.Octets.{is_blank, is_digit};
ghost use Rattle.rules_server.specs.Numerals.{digit as digitOf};

pub fn is_blank(b: u8) -> bool
    ensures { result ≡ is_blank b }
{
    matches!(b, b' ' | b'\t')
}

pub fn is_digit(b: u8) -> bool
    ensures { result ≡ is_digit b }
{
    b.is_ascii_digit()
}

// The value of a digit; of any other byte 0.
pub fn digit(b: u8) -> u8
    ensures { result ≡ digitOf b }
{
    match b {
        b'0'..=b'9' => b - b'0',
        _ => 0,
    }
}
