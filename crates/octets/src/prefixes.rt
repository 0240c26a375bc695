// The front of a byte string.
ghost use Rattle.std.specs.Prelude.{◌≡◌};
ghost use Rattle.rules_server.specs.Octets.{starts_with};

// l begins with p.
#[tactic(auto, using(crate::proofs::prefixes::Laws::begins_same))]
pub fn starts_with(p: &[u8], l: &[u8]) -> bool
    ensures { result ≡ starts_with p.now l.now }
{
    l.starts_with(p)
}
