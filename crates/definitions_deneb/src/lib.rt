// Deneb's rules by value: document 03, F-1. What its calls promise stands in specs/.
#![tactic(auto)]

use definitions::{Bellatrix, Settings};

// What a Deneb close goes by. The last number may be 0: then nobody is activated.
#[repr(C)]
#[derive(Clone, Copy)]
pub struct DenebRules {
    pub settings: Settings,
    pub bellatrix: Bellatrix,
    pub max_per_epoch_activation_churn_limit: u64,
}
