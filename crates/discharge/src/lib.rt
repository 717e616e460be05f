// The discharge outputs of one monitor of a table, and the rows that decided them.
#![tactic(auto)]

mod question;

pub use question::discharge;
