// Laws alone: demand 3 and R-14. The statements: specs/Events.antt, specs/Demand3.antt, specs/ExitEpochs.antt.
#![tactic(auto)]
