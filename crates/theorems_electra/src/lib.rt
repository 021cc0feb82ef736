// Demands 1 and 2 of the Electra calls, by their contracts: specs/ has the statements.
#![tactic(auto)]
