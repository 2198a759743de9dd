// One rewrite of a name by a DNAME: how far a name is beneath an owner, and the name with that owner replaced (01, Reverse names).
#![tactic(auto)]

pub mod inside;
