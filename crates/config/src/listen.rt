//! The address and the port at which a node listens.

ghost use Rattle.std.specs.Prelude.{◌≡◌, MatchOption, IsTrue};
ghost use Rattle.std.specs.declared.net.socket_addr.SocketAddrV4.{SocketAddrV4 as Listened};
ghost use Rattle.config.specs.Listen.{IsListen};
ghost use Rattle.config.specs.Listen as spec;

use std::net::SocketAddrV4;

/// The address that a text is, as `127.0.0.1:2775`, if it is one.
pub fn read_listen(text: &str) -> Option<SocketAddrV4>
    ensures { MatchOption result ((address : Listened) → ¬ IsListen text.now address) (λ address. IsListen text.now address) }
{
    if !is_plain(port_digits(text.as_bytes())) {
        return None;
    }
    match SocketAddrV4::parse_ascii(text.as_bytes()) {
        Ok(address) => Some(address),
        Err(_) => None,
    }
}

/// What follows the first colon.
fn port_digits(text: &[u8]) -> &[u8]
    ensures { result.now ≡ spec.port_digits text.now }
{
    for place in 0..text.len() {
        if text[place] == b':' {
            return &text[place + 1..];
        }
    }
    &[]
}

/// Whether no zero stands before other digits.
fn is_plain(digits: &[u8]) -> bool
    ensures { result ≡ spec.is_plain digits.now }
{
    match digits {
        [first, _, ..] => *first != b'0',
        _ => true,
    }
}
