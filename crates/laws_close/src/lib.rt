// Laws alone, of the definitions of the close with amounts, for the proofs of the crates above. See proofs/.
#![tactic(auto)]
