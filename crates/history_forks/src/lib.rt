// Laws alone: demand 3 of lists of closes of any fork, Electra's included. The statement: specs/Demand3.antt.
#![tactic(auto)]
