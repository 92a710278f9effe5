//! What a board shows at its end.
use crew_script::Dockets;
use fault_model::Tree;
use margin_policy::Standing;

/// A tree, the crews that take its units out, and how things stand.
#[derive(Clone, Copy)]
pub(crate) struct AtEnd<'a> {
    pub tree: &'a Tree,
    pub dockets: &'a Dockets,
    pub standing: &'a Standing,
}
