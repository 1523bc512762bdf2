#![tactic(auto)]

// Terms and roles by their numbers, and sets of them: the one meaning of sets that everything above is built on.
pub mod role;
pub mod role_set;
pub mod set;
pub mod term;
pub mod term_set;
pub mod word_set;
