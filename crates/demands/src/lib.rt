// The user's three demands and the starred examples, gathered from the layers below. Nothing runs here: see specs/ and proofs/.
#![tactic(auto)]
