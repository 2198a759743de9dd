// The search for the addresses of a name, over records whose names are numbers (01, Chains).
#![tactic(auto)]

pub mod inside;
mod links;
