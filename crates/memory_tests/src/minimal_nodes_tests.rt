//! The cut families of nodes in a worker's own memory, compared with what the list method says of the same trees.

mod families;
mod rooms;
mod trees;
