// The names of a table by number: every owner and target has its place in the list of distinct names, as first met.
#![tactic(auto)]

pub mod inside;
