//! Products by splitting, and unions, products and votes of many minimal families, in a worker's own memory.
//!
//! This crate stands on `minimal_operations`. What an operation gives is exactly the minimal sets of the union
//! of a list of families, of their product, or of so many votes over them; where the room for nodes is used up
//! it gives `Spent`, and what the memory had it still has. No call takes memory. Lists are taken in an order of their
//! units where the caller gives a table for it, which changes the time and not the result.
#![tactic(auto)]

mod chains;
mod many;
mod order;
mod splitting;
mod votes;

pub use many::{first_of, product_of_all, union_of_all};
pub use order::{product_in_order, union_in_order};
pub use splitting::product_by_splitting;
pub use votes::votes_of_all;
