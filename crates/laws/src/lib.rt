// Laws alone, for the proofs of the crates above. See proofs/.
#![tactic(auto)]
