// The law of the twelve amounts of an Electra close: specs/ has the statement.
#![tactic(auto)]
