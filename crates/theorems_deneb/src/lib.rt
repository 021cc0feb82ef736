// Demands 1, 2 and 3 and R-14 of Deneb's calls, by their contracts: specs/ has the statements.
#![tactic(auto)]
