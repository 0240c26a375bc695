// The bytes that may stand in a line of a head or a part.
ghost use Rattle.std.specs.Prelude.{◌≡◌};
ghost use Rattle.rules_tablet.specs.Lines.{is_line_byte};

pub fn is_line_byte(b: u8) -> bool
    ensures { result ≡ is_line_byte b }
{
    matches!(b, b'\t' | b' '..=b'~' | 0x80..=0xFF)
}
