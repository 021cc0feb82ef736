// What an Electra close answers by value: document 03, F-3. What it promises stands in specs/.
#![tactic(auto)]

use definitions::{Finality, Raised};
use definitions_electra::ExitChurn;

// 0 or a refusal's number, the finality, the three raised totals (R-7) and the test that last set the checkpoint (R-4); how many validators there
// are then, how many deposits and consolidations are left, and the queues' three numbers. On refusal: as the opening has them, none raised, 0.
// The C interface needs the number beside the value.
#[repr(C)]
#[derive(Clone, Copy)]
pub struct ElectraAnswer {
    pub refusal: u64,
    pub finality: Finality,
    pub raised: Raised,
    pub test: u64,
    pub validators: u64,
    pub deposits: u64,
    pub consolidations: u64,
    pub deposit_balance_to_consume: u64,
    pub churn: ExitChurn,
}
