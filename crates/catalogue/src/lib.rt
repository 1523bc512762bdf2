#![tactic(auto)]

// The catalogue format: a shelf over bytes.
mod body;
mod contents;
mod fault;
pub mod reader;
