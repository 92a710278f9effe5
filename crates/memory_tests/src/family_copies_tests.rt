//! Families that go from a store through a memory into another.

mod cases;
mod families;
mod random;
mod sending;
