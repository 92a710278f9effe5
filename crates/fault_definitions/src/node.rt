//! The numbers of a tree's nodes.
ghost use Rattle.std.specs.Prelude.{◌≡◌, ◌-◌, ◌≤◌};
ghost use Rattle.unit_sets.specs.Unit.{IsUnit};

use std::marker::Model;
use unit_sets::UnitNo;

/// The number of a node of a tree. The units are 1 to U in the order of their definitions, and the gates U+1 to U+G in
/// the order of theirs. A contract sees it as that number.
#[derive(Clone, Copy, PartialEq, Eq, PartialOrd, Ord)]
pub struct NodeNo(pub u32);

impl Model for NodeNo {
    ghost use Rattle.std.specs.Prelude.{ℕ};

    ghost Value = { ℕ };

    ghost view = { λ node. node.0 };

    ghost inverse = { λ number. record { 0 = number } };
}

impl NodeNo {
    /// The number itself.
    pub fn number(self) -> u32
        ensures { result ≡ self }
    {
        self.0
    }

    /// The node's place, from 0, in a list that has an item for each node.
    pub fn index(self) -> usize
        requires { 1 ≤ self }
        ensures { result ≡ self - 1 }
    {
        self.0 as usize - 1
    }

    /// The unit of this number.
    pub fn unit(self) -> UnitNo
        requires { IsUnit self }
        ensures { result ≡ self }
    {
        match UnitNo::new(self.0 as u16) {
            Some(unit) => unit,
            None => unreachable!(),
        }
    }
}
