// The bits of octets and back: bit labels and addresses unpack and pack in this one place.
#![tactic(auto)]

pub mod inside;
