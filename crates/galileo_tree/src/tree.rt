//! The statements of a text that is in the grammar.
ghost use Rattle.std.specs.Prelude.{◌≡◌, ◌^◌, ◌<◌, length, slice_get, Some};

use crate::raw::Statement;
use fault_words::Place;
use flat_rows::GrowingList;
use std::marker::Model;

/// The statements of a text in their order, and the place of its end. `parse` alone makes one. A contract sees
/// it as a `ReadTree`.
#[derive(Drop)]
pub struct RawTree {
    statements: GrowingList<Statement>,
    end: Place,
}

impl Model for RawTree {
    ghost use Rattle.galileo_tree.specs.ReadTree.{ReadTree, KeepsForm};

    ghost Value = { ReadTree };

    ghost use Rattle.std.specs.Prelude.{All};

    ghost view = { λ tree. record { statements = tree.statements; end = tree.end } };

    ghost invariant = { λ tree. All KeepsForm tree.statements };
}

impl RawTree {
    ghost use Rattle.galileo_tree.specs.ReadTree.{KeepsForm};
    ghost use Rattle.std.specs.Prelude.{All};

    // The statements that were read.
    pub(crate) fn new(statements: GrowingList<Statement>, end: Place) -> RawTree
        requires { All KeepsForm statements }
        ensures statements { result.statements ≡ statements }
        ensures end { result.end ≡ end }
    {
        RawTree { statements, end }
    }

    /// How many statements there are.
    pub fn len(&self) -> usize
        ensures len { result ≡ length self.now.statements }
        ensures form { All KeepsForm self.now.statements }
    {
        self.statements.as_slice().len()
    }

    /// The statement at this index, from 0 on.
    pub fn statement(&self, i: usize) -> &Statement
        requires { i < length self.now.statements }
        ensures statement { slice_get self.now.statements i ≡ Some result.now }
        ensures form { KeepsForm result.now }
    {
        &self.statements.as_slice()[i]
    }

    /// The statements, in the order of the text.
    pub fn statements(&self) -> &[Statement]
        ensures statements { result.now ≡ self.now.statements }
        ensures form { All KeepsForm result.now }
        ensures short { length result.now < 2 ^ 63 }
    {
        self.statements.as_slice()
    }

    /// The statements, given up in their order without taking memory.
    pub fn into_statements(self) -> Vec<Statement>
        ensures statements { result.items ≡ self.statements }
    {
        self.statements.into_items()
    }

    /// The place behind the last byte.
    pub fn end(&self) -> Place
        ensures { result ≡ self.now.end }
    {
        self.end
    }
}
