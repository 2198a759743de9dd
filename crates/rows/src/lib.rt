// The addresses that a search has found: rows of sixteen octets in a lent output, ascending, each address once.
#![tactic(auto)]

pub mod inside;
