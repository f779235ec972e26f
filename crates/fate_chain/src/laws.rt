//! Laws of the octets of chains: nothing to call, but to cite.

ghost use Rattle.fate_chain.specs.Bytes.{OctetsAreOfOneChain};

/// No two chains have the same octets. So `Chain::read` gives back the chain whose octets `Chain::bytes` gave, unless
/// memory runs out.
pub fn octets_are_of_one_chain()
    ensures { OctetsAreOfOneChain }
{}
