//! The cut families of all nodes of a fault tree in a shared node store, by workers.
//!
//! The nodes are made rank by rank, each after all that it reads. A worker makes a node's family in a memory of
//! its own, where operations keep families minimal all the way, and puts only the finished family into the
//! store; where that memory is used up, the recipe over the store takes its place for the node. A rank that has
//! shown itself to be heavy is spread over the workers, and so are the nodes that read units alone, if they are no more
//! than workers: each of them draws the next place until none is left.
//!
//! A layer above gets the reference of the minimal cuts, and knows one for each node. All memory is taken before
//! the first node is made. `Full` comes only where a search of this call passed every slot of the store.
#![tactic(auto)]

mod building;
mod own;
mod places;
mod ranks;
mod rounds;
mod table;
mod task;
mod teams;
mod worker;

pub use building::{BuildEnd, TEAM_SHARE, build, build_within};
