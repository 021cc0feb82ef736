// Theorems alone: what holds of the definitions. See specs/ for the statements.
#![tactic(auto)]
