// The ten steps of a close under Electra as its code groups them: specs/. That they are the text's: proofs/.
#![tactic(auto)]
