// The twelve amounts of a close under Electra by its parts: specs/. That they are the text's: proofs/.
#![tactic(auto)]
