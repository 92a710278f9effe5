//! Path lists of worked trees, which of their sets outages leave whole, and stores that are full.

mod lists;
mod outages;
mod stores;
