// Laws alone, of the definitions of record files, for the proofs of the crates above. See proofs/.
#![tactic(auto)]
