#![tactic(auto)]

// A session: tables that a caller lends, and the calls that fill them.
mod lookup;
mod packet;
pub mod refusal;
pub mod session;
pub mod sizes;
mod table;
mod vocabulary;
