//! What is listed, and what the units in it are called.
use crate::unit_texts::UnitTexts;
use cut_sequences::OrderLists;
use fault_model::Tree;
use unit_sets::CutList;

/// A tree, and the texts of its units.
#[derive(Clone, Copy)]
pub(crate) struct Spelled<'a> {
    pub tree: &'a Tree,
    pub texts: &'a UnitTexts,
}

/// Cut sets of a tree, and the orders that are listed for them.
#[derive(Clone, Copy)]
pub(crate) struct Listing<'a> {
    pub names: Spelled<'a>,
    pub cuts: &'a CutList,
    pub orders: &'a OrderLists,
}
