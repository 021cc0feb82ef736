// Laws of Electra's definitions that proofs cite: proofs/.
#![tactic(auto)]
