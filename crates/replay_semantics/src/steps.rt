//! The steps of several nodes, and whether a node fails by the steps of what it reads.
ghost use Rattle.std.specs.Prelude.{◌≡◌, ◌<◌, length, All, is_some};
ghost use Rattle.std.specs.List.{list_all, list_any};
ghost use Rattle.fault_definitions.specs.Reading.{true_count};
ghost use Rattle.fault_definitions.specs.Step.{first_step, last_step, never_falls, no_later};
ghost use Rattle.fault_definitions.specs.Tree.{IsNodeOf};
ghost use Rattle.replay_semantics.specs.Failing.{falls_not_after, gate_fails, node_fails, AsksSome};
ghost use Rattle.replay_semantics.specs.Table.{step_in, has_step, AreIn, IsTableFor};

use fault_model::{GateKind, NodeNo, Tree};

// At which place of the order a node failed, or `None` while it has not.
pub type Step = Option<u16>;

fn is_no_later(step: Step, other: Step) -> bool
    ensures { result ≡ no_later step other }
{
    match (step, other) {
        (_, None) => true,
        (None, Some(_)) => false,
        (Some(number), Some(other)) => number <= other,
    }
}

pub fn step_of(steps: &[Step], node: NodeNo) -> Step
    requires { node < length steps.now }
    ensures { result ≡ step_in steps.now node }
{
    steps[node.number() as usize]
}

pub fn has_failed(steps: &[Step], node: NodeNo) -> bool
    requires { node < length steps.now }
    ensures { result ≡ has_step steps.now node }
{
    step_of(steps, node).is_some()
}

fn all_failed(steps: &[Step], nodes: &[NodeNo]) -> bool
    requires { AreIn steps.now nodes.now }
    ensures { result ≡ list_all (has_step steps.now) nodes.now }
{
    nodes.iter().all(|node| has_failed(steps, *node))
}

fn any_failed(steps: &[Step], nodes: &[NodeNo]) -> bool
    requires { AreIn steps.now nodes.now }
    ensures { result ≡ list_any (has_step steps.now) nodes.now }
{
    nodes.iter().any(|node| has_failed(steps, *node))
}

fn count_failed(steps: &[Step], nodes: &[NodeNo]) -> usize
    requires { AreIn steps.now nodes.now }
    ensures { result ≡ true_count (has_step steps.now) nodes.now }
{
    nodes
        .iter()
        .filter(|node| has_failed(steps, **node))
        .count()
}

// Whether the steps fall nowhere from left to right, from a step before them on.
fn fall_not_after(steps: &[Step], before: Step, nodes: &[NodeNo]) -> bool
    requires { AreIn steps.now nodes.now }
    ensures { result ≡ falls_not_after (step_in steps.now) before nodes.now }
{
    let mut before = before;
    for node in nodes {
        let step = step_of(steps, *node);
        if !is_no_later(before, step) {
            return false;
        }
        before = step;
    }
    true
}

/// Whether the steps fall nowhere from left to right.
pub fn never_fall(steps: &[Step], nodes: &[NodeNo]) -> bool
    requires { AreIn steps.now nodes.now }
    ensures { result ≡ never_falls (step_in steps.now) nodes.now }
{
    match nodes {
        [first, others @ ..] => fall_not_after(steps, step_of(steps, *first), others),
        [] => true,
    }
}

fn last_failed(steps: &[Step], nodes: &[NodeNo]) -> bool
    requires { AreIn steps.now nodes.now }
    ensures { result ≡ is_some (last_step (step_in steps.now) nodes.now) }
{
    match nodes {
        [.., last] => has_failed(steps, *last),
        [] => false,
    }
}

fn none_before(steps: &[Step], step: Step, nodes: &[NodeNo]) -> bool
    requires { AreIn steps.now nodes.now }
    ensures { result ≡ list_all (λ other. no_later step (step_in steps.now other)) nodes.now }
{
    nodes
        .iter()
        .all(|other| is_no_later(step, step_of(steps, *other)))
}

// Whether the first node has failed, and none of the others before it.
fn first_fails(steps: &[Step], nodes: &[NodeNo]) -> bool
    requires { AreIn steps.now nodes.now }
    ensures { result ≡ is_some (first_step (step_in steps.now) nodes.now) }
{
    match nodes {
        [first, others @ ..] => {
            has_failed(steps, *first) && none_before(steps, step_of(steps, *first), others)
        }
        [] => false,
    }
}

fn gate_fails(kind: GateKind, steps: &[Step], inputs: &[NodeNo]) -> bool
    requires inputs { AreIn steps.now inputs.now }
    requires some { AsksSome kind }
    ensures { result ≡ gate_fails kind (step_in steps.now) inputs.now }
{
    match kind {
        GateKind::And | GateKind::Seq | GateKind::Csp | GateKind::Wsp | GateKind::Hsp => {
            all_failed(steps, inputs)
        }
        GateKind::Or => any_failed(steps, inputs),
        GateKind::Votes(least, _) => least as usize <= count_failed(steps, inputs),
        GateKind::Pand => last_failed(steps, inputs) && never_fall(steps, inputs),
        GateKind::Por => first_fails(steps, inputs),
        GateKind::Fdep => false,
    }
}

/// Whether a gate fails by the steps of its inputs, or a unit by a trigger.
pub fn node_fails(tree: &Tree, steps: &[Step], node: NodeNo) -> bool
    requires node { IsNodeOf tree.now node }
    requires steps { IsTableFor tree.now steps.now }
    ensures { result ≡ node_fails tree.now (step_in steps.now) node }
{
    let below = tree.below(node);
    if node.number() > tree.units() {
        return gate_fails(tree.kind(node), steps, below);
    }
    any_failed(steps, below)
}
