//! Octets one by one.

ghost use Rattle.std.specs.Prelude.{◌≡◌, ◌==◌, position};

/// Where the octet stands first.
pub(crate) fn place_of(sought: u8, octets: &[u8]) -> Option<usize>
    ensures { result ≡ position (λ octet. octet == sought) octets.now }
{
    octets.iter().position(|octet| *octet == sought)
}
