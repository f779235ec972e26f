//! Why a packet does not join a group.

/// Why a packet does not join a group.
#[derive(Clone, Copy, Debug, PartialEq, Eq)]
pub enum JoinFault {
    /// 1: it is no Prepare and no Propose of a node of the cluster: its step is taken alone.
    Alone,
    /// 2: a packet of its message is in the group.
    SameMessage,
    /// 3: 64 packets are in the group.
    Full,
    /// 4: its step saves nothing: it is taken alone.
    Idle,
    /// There was no memory for its step.
    Memory,
}
