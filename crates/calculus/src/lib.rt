#![tactic(auto)]

// The calculus: what axioms mean, which results the rules give, and the theorems about both.
pub mod pair;
pub mod state;
pub mod theorems;
