//! The fault tree that every crate above reads, and what it keeps.
ghost use Rattle.std.specs.Prelude.{◌≡◌, ◌≢◌, ◌↔◌, ℕ, ◌-◌, ◌<◌, ◌≤◌, false, List, ◌++◌, All, IfOk, IfSome, IsNone};
ghost use Rattle.std.specs.Prelude.{position, take};
ghost use Rattle.fault_words.specs.Names.{same_name};
ghost use Rattle.fault_definitions.specs.declared.parts.TheConstants.{MOST_GATES};
ghost use Rattle.fault_definitions.specs.Rank.{rank_over};
ghost use Rattle.fault_definitions.specs.Tree.{ranked, unit_count, gate_count, kind_of, inputs_of, rank_of, name_of};
ghost use Rattle.fault_definitions.specs.Tree.{attributes_of, is_fdep, IsGateOf, IsNodeOf, IsUnitOf};
ghost use Rattle.fault_model.specs.TreeTables.{IsFromBelow};
ghost use Rattle.fault_definitions.specs.Trigger.{below, triggers_of};
ghost use Rattle.fault_definitions.specs.WellFormed.{IsTree};

use crate::ranking::Ranking;
use crate::trigger::TriggerTable;
use crate::{
    Attribute, AttributeLists, GateKind, InputLists, KindList, Name, NameTable, NoMemory, NodeList,
    NodeNo, TreeParts,
};
use std::alloc::Global;
use std::marker::Model;
use unit_sets::UnitNo;

/// A fault tree that is well formed. A contract sees it as its parts and the rank of each node.
#[derive(Drop)]
pub struct Tree {
    names: NameTable,
    kinds: KindList,
    // what each node reads: the triggers of each unit, then the inputs of each gate
    below: Vec<NodeList>,
    attributes: AttributeLists,
    top: NodeNo,
    ranks: Vec<u32>,
    // the nodes, each after what it reads
    bottom_up: Vec<NodeNo>,
}

impl Model for Tree {
    ghost use Rattle.std.specs.Prelude.{drop, length};
    ghost use Rattle.fault_definitions.specs.Tree.{FaultTree};
    ghost use Rattle.fault_model.specs.TreeTables.{HoldsTables};

    ghost Value = { FaultTree };

    ghost view = { λ tree. record {
      names = tree.names;
      kinds = tree.kinds;
      inputs = drop (length tree.attributes) tree.below.items;
      attributes = tree.attributes;
      top = tree.top;
      ranks = tree.ranks.items;
    } };

    ghost invariant = { λ tree. HoldsTables (record {
      names = tree.names;
      kinds = tree.kinds;
      inputs = drop (length tree.attributes) tree.below.items;
      attributes = tree.attributes;
      top = tree.top;
      ranks = tree.ranks.items;
    }) tree.below.items tree.bottom_up.items };
}

impl Tree {
    /// The tree of these parts, which have to be those of one: for some ranks they keep what a tree keeps.
    pub fn new(alloc: Global, parts: TreeParts) -> Result<Tree, NoMemory>
        requires { (ranks : List ℕ) × IsTree (ranked parts ranks) }
        ensures { IfOk result (λ tree. tree ≡ ranked parts tree.ranks) }
    {
        let TreeParts {
            names,
            kinds,
            inputs,
            attributes,
            top,
        } = parts;
        let units = attributes.as_slice().len();
        let table = TriggerTable::over(alloc, units, kinds.as_slice(), inputs.as_slice())?;
        let below = joined(table.lists, inputs)?;
        let ranking = Ranking::over(alloc, below.as_slice())?;
        Ok(Tree {
            names,
            kinds,
            below,
            attributes,
            top,
            ranks: ranking.ranks,
            bottom_up: ranking.order,
        })
    }

    /// How many units there are: U.
    pub fn units(&self) -> u32
        ensures count { result ≡ unit_count self.now }
        ensures kept { IsTree self.now }
    {
        self.attributes.as_slice().len() as u32
    }

    /// How many gates there are: G.
    pub fn gates(&self) -> u32
        ensures count { result ≡ gate_count self.now }
        ensures limit { result ≤ MOST_GATES }
    {
        self.kinds.as_slice().len() as u32
    }

    /// The top event, which is no `fdep`.
    pub fn top(&self) -> NodeNo
        ensures top { result ≡ self.now.top }
        ensures node { IsNodeOf self.now result }
        ensures read { is_fdep self.now result ≡ false }
    {
        self.top
    }

    // The place of a gate, from 0, among the gates.
    fn gate_place(&self, gate: NodeNo) -> usize
        requires { IsGateOf self.now gate }
        ensures place { result ≡ gate - unit_count self.now - 1 }
        ensures within { result < gate_count self.now }
    {
        gate.index() - self.attributes.as_slice().len()
    }

    /// The kind of a gate.
    pub fn kind(&self, gate: NodeNo) -> GateKind
        requires { IsGateOf self.now gate }
        ensures { result ≡ kind_of self.now gate }
    {
        self.kinds.as_slice()[self.gate_place(gate)]
    }

    fn list(&self, node: NodeNo) -> &[NodeNo]
        requires { IsNodeOf self.now node }
        ensures { result.now ≡ below self.now node }
    {
        self.below[node.index()].as_slice()
    }

    /// What a node reads: a gate its inputs from left to right, and a unit its triggers.
    pub fn below(&self, node: NodeNo) -> &[NodeNo]
        requires { IsNodeOf self.now node }
        ensures below { result.now ≡ below self.now node }
        ensures nodes { All (IsNodeOf self.now) result.now }
    {
        // What a node reads are nodes, as the list keeps.
        let _ = &self.below;
        self.list(node)
    }

    /// The inputs of a gate, from left to right. None is an `fdep`.
    pub fn inputs(&self, gate: NodeNo) -> &[NodeNo]
        requires { IsGateOf self.now gate }
        ensures inputs { result.now ≡ inputs_of self.now gate }
        ensures nodes { All (IsNodeOf self.now) result.now }
    {
        self.below(gate)
    }

    /// The triggers of a unit: the first input of each `fdep` that has the unit among its others, in the order of the
    /// gates.
    pub fn triggers(&self, unit: UnitNo) -> &[NodeNo]
        requires { IsUnitOf self.now unit }
        ensures triggers { result.now ≡ triggers_of self.now unit }
        ensures nodes { All (IsNodeOf self.now) result.now }
    {
        self.below(NodeNo(u32::from(unit.number())))
    }

    /// The rank of a node: 0 of a unit without triggers, and of every other one more than the greatest of what it
    /// reads.
    pub fn rank(&self, node: NodeNo) -> u32
        requires { IsNodeOf self.now node }
        ensures rank { result ≡ rank_of self.now node }
        ensures rule { result ≡ rank_over self.now (below self.now node) }
    {
        self.ranks[node.index()]
    }

    /// Every node, after all that it reads.
    pub fn bottom_up(&self) -> &[NodeNo]
        ensures order { IsFromBelow self.now result.now }
        ensures kept { IsTree self.now }
    {
        self.bottom_up.as_slice()
    }

    /// The name of a node.
    pub fn name(&self, node: NodeNo) -> &Name
        requires { IsNodeOf self.now node }
        ensures { result.now ≡ name_of self.now node }
    {
        &self.names.as_slice()[node.index()]
    }

    /// The attributes of a unit, in the order of its definition.
    pub fn attributes(&self, unit: UnitNo) -> &[Attribute]
        requires { IsUnitOf self.now unit }
        ensures { result.now ≡ attributes_of self.now unit }
    {
        self.attributes.as_slice()[unit.index()].as_slice()
    }

    /// The names of the units, in the order of their numbers.
    pub fn unit_names(&self) -> &[Name]
        ensures names { result.now ≡ take (unit_count self.now) self.now.names }
        ensures kept { IsTree self.now }
    {
        let units = self.units() as usize;
        &self.names.as_slice()[..units]
    }

    /// The unit of a name. A gate's name is no unit's. The names of all units are looked through: where many are asked
    /// for, an index of them is faster.
    pub fn unit_named(&self, name: &Name) -> Option<UnitNo>
        ensures named { IfSome result (λ unit. IsUnitOf self.now unit × (name_of self.now unit ≡ name.now)) }
        ensures none { IsNone result ↔ ((unit : ℕ) → IsUnitOf self.now unit → name_of self.now unit ≢ name.now) }
    {
        let place = place_of(self.unit_names(), name)?;
        UnitNo::new(place as u16 + 1)
    }
}

// The place of a name, from 0.
fn place_of(names: &[Name], name: &Name) -> Option<usize>
    ensures { result ≡ position (same_name name.now) names.now }
{
    names.iter().position(
        |other| -> bool
            ensures { result ≡ same_name name.entry.now other.entry.now }
        { name == other },
    )
}

// What each unit and then each gate reads.
fn joined(mut triggers: Vec<NodeList>, inputs: InputLists) -> Result<Vec<NodeList>, NoMemory>
    ensures { IfOk result (λ below. below.items ≡ triggers.items ++ inputs) }
{
    for list in inputs.into_items() {
        triggers.push(list)?;
    }
    Ok(triggers)
}
