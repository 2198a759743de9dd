// What the programs read: the octets of standard input, as many as a buffer has room for.
#![tactic(auto)]

pub mod inside;
