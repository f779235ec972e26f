//! What comes to a node.

ghost use Rattle.std.specs.Prelude.{◌≡◌, ◌↔◌, ◌⊎◌, true, None, IfErr, IfOk, IsErrOf};
ghost use Rattle.node_laws.specs.Steps.{IsWellMade};
ghost use Rattle.synod_acceptor.specs.Packets.{packet_of};
ghost use Rattle.node_core.specs.StepFault.TheVariants.{Broken, Device, Memory};
ghost use Rattle.node_core.specs.Keeping.{kept_of};
ghost use Rattle.node_core.specs.Steps.{IsFault, refused_by};
ghost use Rattle.node_core.specs.Nodes.{fault_in, seen};
ghost use Rattle.node_runs.specs.Runs.{Happens, IsLeftBy, IsSound, Takes, may_come_to};

use delivery::outcomes_are_possible;
use node_core::{Input, Node, Outputs, StepFault};
use stable_store::StableStore;
use synod_acceptor::Packet;

/// Takes the step of an input, as one of the actor that the node is: prepares and commits it. Broken exactly if a save failed before; then
/// Grant and NotGranted exactly as `Node::prepare_step` says. These and Memory change nothing; at Device the change is saved or not, and the node is
/// Broken.
pub fn take<S: StableStore>(node: &mut Node<S>, input: Input) -> Result<Outputs, StepFault>
    ensures ok { IfOk result (λ outputs. Happens node.old (Takes input outputs) node.new) }
    ensures broken { IsErrOf result Broken ↔ (node.old.broken ≡ true) }
    ensures faults { IfErr result (λ fault. ((fault ≡ Device) × (fault_in node.old input ≡ None)) ⊎ IsFault (fault_in node.old input) fault) }
    ensures left { IfErr result (λ fault. IsLeftBy fault (seen S.stored node.old) input (seen S.stored node.new)) }
{
    may_come(node, &input);
    let pending = node.prepare_step(input)?;
    node.commit(pending)
}

/// What a proof takes of an input: it may come to the node, unless it is refused. The call does nothing.
pub fn may_come<S: StableStore>(node: &Node<S>, input: &Input)
    ensures { refused_by node.now.kept.setup (kept_of node.now.kept) input.now ≡ None → may_come_to node.now input.now }
{
    node.bounds();
    is_sound(input);
}

/// What a proof takes of an input alone.
fn is_sound(input: &Input)
    ensures { IsSound input.now }
{
    match input {
        Input::Packet(packet) => is_well_made(packet),
        Input::Answered(_, outcome) => outcomes_are_possible(*outcome),
        Input::Request(..) | Input::Grant(_) | Input::Tick(..) => {}
    }
}

/// What a proof takes of a packet: the chain in it is a permitted one.
pub fn is_well_made(packet: &Packet)
    ensures { IsWellMade (packet_of packet.now) }
{
    match packet {
        Packet::Propose { vote, .. } | Packet::Voted { vote, .. } => vote.chain.bounds(),
        Packet::Tell { told, .. } => {
            if let Some(vote) = told {
                vote.chain.bounds();
            }
        }
        Packet::Prepare { .. }
        | Packet::Promise { .. }
        | Packet::Refused { .. }
        | Packet::Ask { .. } => {}
    }
}
