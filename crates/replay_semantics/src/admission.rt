//! Whether an order that can happen still can with one unit more: what a cold spare waits for, and gates whose inputs
//! fail in turn.
ghost use Rattle.std.specs.Prelude.{◌≡◌, ◌<◌, ℕ, true, length, All};
ghost use Rattle.std.specs.List.{list_all};
ghost use Rattle.fault_definitions.specs.Tree.{IsNodeOf};
ghost use Rattle.replay_semantics.specs.Admission.{is_awaited, gate_awaits, gate_in_turn, node_awaits, node_in_turn};
ghost use Rattle.replay_semantics.specs.Admission.{all_in_turn};
ghost use Rattle.replay_semantics.specs.Readers.{AreReaders};
ghost use Rattle.replay_semantics.specs.Table.{step_in, AreIn, IsTableFor};

use crate::steps::{Step, has_failed, never_fall};
use fault_model::{GateKind, NodeNo, Tree};
use flat_rows::Rows;

// Whether all inputs left of the unit have failed, wherever it stands.
fn is_awaited(steps: &[Step], unit: NodeNo, inputs: &[NodeNo]) -> bool
    requires { AreIn steps.now inputs.now }
    ensures { result ≡ is_awaited (step_in steps.now) unit true inputs.now }
{
    let mut failed = true;
    for input in inputs {
        if input.number() == unit.number() && !failed {
            return false;
        }
        failed = failed && has_failed(steps, *input);
    }
    true
}

fn gate_awaits(kind: GateKind, steps: &[Step], unit: NodeNo, inputs: &[NodeNo]) -> bool
    requires { AreIn steps.now inputs.now }
    ensures { result ≡ gate_awaits (step_in steps.now) unit kind inputs.now }
{
    match kind {
        GateKind::Csp => is_awaited(steps, unit, inputs),
        _ => true,
    }
}

fn gate_in_turn(kind: GateKind, steps: &[Step], inputs: &[NodeNo]) -> bool
    requires { AreIn steps.now inputs.now }
    ensures { result ≡ gate_in_turn (step_in steps.now) kind inputs.now }
{
    match kind {
        GateKind::Seq => never_fall(steps, inputs),
        _ => true,
    }
}

fn node_awaits(tree: &Tree, steps: &[Step], unit: NodeNo, node: NodeNo) -> bool
    requires node { IsNodeOf tree.now node }
    requires steps { IsTableFor tree.now steps.now }
    ensures { result ≡ node_awaits tree.now (step_in steps.now) unit node }
{
    node.number() <= tree.units() || gate_awaits(tree.kind(node), steps, unit, tree.inputs(node))
}

fn node_in_turn(tree: &Tree, steps: &[Step], node: NodeNo) -> bool
    requires node { IsNodeOf tree.now node }
    requires steps { IsTableFor tree.now steps.now }
    ensures { result ≡ node_in_turn tree.now (step_in steps.now) node }
{
    node.number() <= tree.units() || gate_in_turn(tree.kind(node), steps, tree.inputs(node))
}

/// Whether every node that reads a unit lets it fail next.
pub fn all_await(tree: &Tree, steps: &[Step], unit: NodeNo, readers: &[NodeNo]) -> bool
    requires readers { All (IsNodeOf tree.now) readers.now }
    requires steps { IsTableFor tree.now steps.now }
    ensures { result ≡ list_all (node_awaits tree.now (step_in steps.now) unit) readers.now }
{
    readers
        .iter()
        .all(|reader| node_awaits(tree, steps, unit, *reader))
}

fn are_in_turn(tree: &Tree, steps: &[Step], readers: &[NodeNo]) -> bool
    requires readers { All (IsNodeOf tree.now) readers.now }
    requires steps { IsTableFor tree.now steps.now }
    ensures { result ≡ list_all (node_in_turn tree.now (step_in steps.now)) readers.now }
{
    readers
        .iter()
        .all(|reader| node_in_turn(tree, steps, *reader))
}

/// Whether the inputs of every gate that reads one of some nodes have failed in turn, where the gate asks for that.
pub fn keep_turns(tree: &Tree, readers: &Rows<NodeNo>, steps: &[Step], failed: &[NodeNo]) -> bool
    requires readers { AreReaders tree.now readers.now }
    requires steps { IsTableFor tree.now steps.now }
    requires failed { All (IsNodeOf tree.now) failed.now }
    ensures { result ≡ all_in_turn tree.now readers.now steps.now failed.now }
{
    failed.iter().all(|node| are_in_turn(tree, steps, readers.row(node.number() as usize)))
}
