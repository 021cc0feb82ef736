// Laws alone: when a deposit starts earning, and how full an exit epoch gets. The statements: specs/Events.antt, specs/DepositsEarn.antt,
// specs/ExitEpochs.antt.
#![tactic(auto)]
