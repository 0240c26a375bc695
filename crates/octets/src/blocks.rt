// Blocks of bytes: each fold looks at every byte, so that many are tested at once.
ghost use Rattle.std.specs.Prelude.{◌≡◌};
ghost use Rattle.rules_server.specs.Octets.{all};
ghost use Rattle.octets.specs.Alike.{is_byte, is_other};

// Every byte is b.
pub fn all_are(block: &[u8], b: u8) -> bool
    ensures { result ≡ all (is_byte b) block.now }
{
    block.iter().fold(true, |alike, x| alike & (*x == b))
}

// No byte is b. Apart from `all_are`: a fold that is handed its test would be no shorter at either.
pub(crate) fn none_is(block: &[u8], b: u8) -> bool
    ensures { result ≡ all (is_other b) block.now }
{
    block.iter().fold(true, |others, x| others & (*x != b))
}
