//! What each operation makes of small families, full stores, and seats split off and joined.

mod deep;
mod small;
mod stores;
mod texts;
