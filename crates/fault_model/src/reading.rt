//! The static reading of a node under a set of units, in one pass over the tree from below.
ghost use Rattle.std.specs.Prelude.{◌≡◌, ℕ, ◌<◌, false, Bool, List, length, All, slice_index_or, IfOk};
ghost use Rattle.std.specs.List.{list_any, list_all};
ghost use Rattle.unit_sets.specs.UnitList.{among};
ghost use Rattle.fault_definitions.specs.Reading.{first_reads, gate_reads, node_reads, reads, true_count};
ghost use Rattle.fault_model.specs.Scratch.{value_in, IsScratchFor, AreIn};
ghost use Rattle.fault_definitions.specs.Tree.{is_fdep, IsNodeOf};

use crate::{GateKind, NoMemory, NodeNo, Tree};
use std::alloc::Global;
use std::marker::Model;
use unit_sets::UnitSet;

/// Room for the readings of all nodes of a tree. A contract sees it as how many places it has.
#[derive(Drop)]
pub struct Scratch {
    // the reading of each node, by its number
    values: Vec<bool>,
}

impl Model for Scratch {
    ghost use Rattle.std.specs.Prelude.{ℕ, length};

    ghost Value = { ℕ };

    ghost view = { λ scratch. length scratch.values.items };
}

impl Scratch {
    /// Room for a tree.
    pub fn new(alloc: Global, tree: &Tree) -> Result<Scratch, NoMemory>
        ensures { IfOk result (IsScratchFor tree.now) }
    {
        let nodes = tree.units() as usize + tree.gates() as usize;
        let values = vec![in alloc; false; nodes + 1]?;
        Ok(Scratch { values })
    }
}

fn value(values: &[bool], node: NodeNo) -> bool
    requires { node < length values.now }
    ensures { result ≡ value_in values.now node }
{
    values[node.number() as usize]
}

fn any_value(values: &[bool], nodes: &[NodeNo]) -> bool
    requires { AreIn values.now nodes.now }
    ensures { result ≡ list_any (value_in values.now) nodes.now }
{
    nodes.iter().any(|node| value(values, *node))
}

fn all_values(values: &[bool], nodes: &[NodeNo]) -> bool
    requires { AreIn values.now nodes.now }
    ensures { result ≡ list_all (value_in values.now) nodes.now }
{
    nodes.iter().all(|node| value(values, *node))
}

fn count_values(values: &[bool], nodes: &[NodeNo]) -> usize
    requires { AreIn values.now nodes.now }
    ensures { result ≡ true_count (value_in values.now) nodes.now }
{
    nodes.iter().filter(|node| value(values, **node)).count()
}

fn first_value(values: &[bool], nodes: &[NodeNo]) -> bool
    requires { AreIn values.now nodes.now }
    ensures { result ≡ first_reads (value_in values.now) nodes.now }
{
    match nodes {
        [first, ..] => value(values, *first),
        [] => false,
    }
}

fn gate_value(kind: GateKind, values: &[bool], inputs: &[NodeNo]) -> bool
    requires { AreIn values.now inputs.now }
    ensures { result ≡ gate_reads kind (value_in values.now) inputs.now }
{
    match kind {
        GateKind::And
        | GateKind::Pand
        | GateKind::Seq
        | GateKind::Csp
        | GateKind::Wsp
        | GateKind::Hsp => all_values(values, inputs),
        GateKind::Or => any_value(values, inputs),
        GateKind::Votes(least, _) => least as usize <= count_values(values, inputs),
        GateKind::Por => first_value(values, inputs),
        GateKind::Fdep => false,
    }
}

fn node_value(tree: &Tree, values: &[bool], node: NodeNo, set: &UnitSet) -> bool
    requires node { IsNodeOf tree.now node }
    requires values { IsScratchFor tree.now (length values.now) }
    ensures { result ≡ node_reads tree.now (among set.now) (value_in values.now) node }
{
    let below = tree.below(node);
    if node.number() > tree.units() {
        return gate_value(tree.kind(node), values, below);
    }
    set.contains(node.unit()) || any_value(values, below)
}

/// The static reading of a node of the tree, other than an `fdep`, under a set of units.
pub fn eval_static(tree: &Tree, scratch: &mut Scratch, node: NodeNo, set: &UnitSet) -> bool
    requires scratch { IsScratchFor tree.now scratch.old }
    requires node { IsNodeOf tree.now node }
    requires read { is_fdep tree.now node ≡ false }
    ensures reading { result ≡ reads tree.now (among set.now) node }
    ensures scratch { scratch.new ≡ scratch.old }
{
    for each in tree.bottom_up() {
        let value = node_value(tree, scratch.values.as_slice(), *each, set);
        scratch.values[each.number() as usize] = value;
    }
    value(scratch.values.as_slice(), node)
}
