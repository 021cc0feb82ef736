// Laws of the close under Electra that its code and its theorems cite: proofs/.
#![tactic(auto)]
