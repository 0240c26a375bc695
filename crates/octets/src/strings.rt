// Byte strings: the same bytes.
ghost use Rattle.std.specs.Prelude.{◌≡◌};
ghost use Rattle.rules_server.specs.Octets.{same as same_bytes};

// a and b are the same bytes. It stays beside `==` for its clause: the definitions say `same`, which `==` of slices does not.
pub fn same(a: &[u8], b: &[u8]) -> bool
    ensures { result ≡ same_bytes a.now b.now }
{
    a == b
}
