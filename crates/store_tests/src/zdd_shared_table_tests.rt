//! Nodes made by one seat and by several threads, full stores, and shares.

mod asking;
mod stores;
mod threads;
