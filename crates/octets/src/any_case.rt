// Byte strings that are the same in any case of letters.
ghost use Rattle.std.specs.Prelude.{◌≡◌};
ghost use Rattle.rules_server.specs.Octets.{same_fold};

// a and b are the same bytes but for the case of letters.
pub fn same_fold(a: &[u8], b: &[u8]) -> bool
    ensures { result ≡ same_fold a.now b.now }
{
    a.eq_ignore_ascii_case(b)
}
