//! What is said of nodes, and hardly meant.

ghost use Rattle.std.specs.Prelude.{◌≡◌, ◌↔◌, IsTrue, is_some};
ghost use Rattle.std.specs.List.{list_any};
ghost use Rattle.config_warnings.specs.Nodes as spec;

use config::NodeConfig;

/// Whether two nodes keep their records in one file, by its path.
pub fn share_store(one: &NodeConfig, other: &NodeConfig) -> bool
    ensures { result ≡ spec.share_store one.now other.now }
{
    match (&one.store, &other.store) {
        (Some(one), Some(other)) => one.as_str() == other.as_str(),
        _ => false,
    }
}

/// Whether two nodes listen on one port, which is not 0: of one address, or one of them of all.
pub fn share_port(one: &NodeConfig, other: &NodeConfig) -> bool
    ensures { IsTrue result ↔ spec.SharePort one.now other.now }
{
    let (one, other) = (one.listen, other.listen);
    if one.port() == 0 || one.port() != other.port() {
        return false;
    }
    one.ip() == other.ip() || one.ip().is_unspecified() || other.ip().is_unspecified()
}

/// Whether a node keeps its records in memory, and one of these in a file.
pub fn is_left_in_memory(nodes: &[NodeConfig], node: &NodeConfig) -> bool
    ensures { result ≡ spec.is_left_in_memory nodes.now node.now }
{
    node.store.is_none() && is_any_in_a_file(nodes)
}

/// Whether one of some nodes keeps its records in a file.
fn is_any_in_a_file(nodes: &[NodeConfig]) -> bool
    ensures { result ≡ list_any (λ node. is_some node.store) nodes.now }
{
    nodes.iter().any(|node| node.store.is_some())
}
