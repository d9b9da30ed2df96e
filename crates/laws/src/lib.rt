// No code: the definitions that every layer's definitions use are in specs/, the laws that every
// layer's proofs use in proofs/.
#![tactic(auto)]
