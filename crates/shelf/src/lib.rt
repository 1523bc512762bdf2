#![tactic(auto)]

// Shelves: lists of axioms or faults that can be asked.
pub mod counted;
pub mod entries;
pub mod fault;
pub mod form;
pub mod joined;
mod limit;
pub mod records;
pub mod shelf;
