//! Operations on minimal families in a worker's own memory, each of which gives a minimal family.
//!
//! This crate stands on `family_memory` for the nodes and on `zdd_families` for the laws by which the
//! operations are computed from parts. What an operation gives is exactly what is left of a family, or the
//! minimal sets of a union or a product; where the room for nodes is used up it gives `Spent`, and what the
//! memory had it still has. No call takes memory.
#![tactic(auto)]

mod halves;
mod nodes;
mod products;
mod products_below;
mod unions;
mod withouts;

pub use halves::{Half, half_at};
pub use nodes::{branch_node, rid_node, single};
pub use products::product;
pub use products_below::product_below;
pub use unions::union;
pub use withouts::without;
