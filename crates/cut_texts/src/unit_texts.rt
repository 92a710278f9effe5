//! The text of each unit.
ghost use Rattle.std.specs.Prelude.{◌≡◌, ◌-◌, ◌<◌, ◌≤◌, ℕ, List, [], ◌++◌, ◌∷◌, length, IfOk, OnOk, slice_index_or};
ghost use Rattle.fault_definitions.specs.Tree.{FaultTree, IsUnitOf, name_of};
ghost use Rattle.text_pieces.specs.Shown.{named};
ghost use Rattle.cut_texts.specs.Lines.{IsLine};
ghost use Rattle.cut_texts.specs.UnitTexts.{AreTextsOf, unit_text};

use crate::line::{Line, add_pieces};
use edge_io::NoMemory;
use fault_model::{Name, NodeNo, Tree};
use flat_rows::Rows;
use std::alloc::Global;
use std::marker::Model;
use unit_sets::UnitNo;

/// The names of a tree's units as texts show them, each behind a blank: made once, so that a unit is one piece each
/// time that it is put.
#[derive(Drop)]
pub struct UnitTexts {
    rows: Rows<u8>,
    alloc: Global,
}

impl Model for UnitTexts {
    ghost use Rattle.std.specs.Prelude.{ℕ, List};

    ghost Value = { List (List ℕ) };

    ghost view = { λ texts. texts.rows };
}

impl UnitTexts {
    /// The texts of the units of a tree.
    pub fn new(alloc: Global, tree: &Tree) -> Result<UnitTexts, NoMemory>
        ensures { IfOk result (AreTextsOf tree.now) }
    {
        let mut rows = Rows::new(alloc);
        let mut text = Vec::new(alloc);
        for before in 0..tree.units() {
            text.clear();
            show(&mut text, tree.name(NodeNo(before + 1)))?;
            rows.push(text.as_slice())?;
        }
        Ok(UnitTexts { rows, alloc })
    }

    /// A line of texts, which has none yet.
    pub(crate) fn line(&self) -> Line
        ensures { (tree : FaultTree) (start : List ℕ) → IsLine tree start result }
    {
        Line::new(self.alloc)
    }

    /// The text of a unit.
    pub(crate) fn text(&self, unit: UnitNo) -> &[u8]
        requires { unit ≤ length self.now }
        ensures { result.now ≡ slice_index_or self.now (unit - 1) [] }
    {
        self.rows.row(unit.index())
    }
}

// Adds the text of a name to an empty one.
fn show(text: &mut Vec<u8>, name: &Name) -> Result<(), NoMemory>
    requires { text.old.items ≡ [] }
    ensures { OnOk result (text.new.items ≡ named name.now) }
{
    if name.is_bare() {
        add_pieces(text, &[b" ", name.as_slice()])
    } else {
        add_pieces(text, &[b" \"", name.as_slice(), b"\""])
    }
}
