// Theorems alone: record files written and read. See specs/ for the statements; the module has them of the functions.
#![tactic(auto)]

pub mod file_round_trips;
