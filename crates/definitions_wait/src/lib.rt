// What a reader must believe of the call that says how long a validator waits for activation: the definition in specs/, and here its answer.
#![tactic(auto)]

// 0 or a refusal's number; 1 where the validator waits for activation and else 0; how many wait ahead of it; and once how many further closes are
// accepted it has its activation epoch. The last two are 0 where it does not wait.
// The C interface needs the number beside the value.
#[repr(C)]
#[derive(Clone, Copy)]
pub struct WaitAnswer {
    pub refusal: u64,
    pub waits: u64,
    pub ahead: u64,
    pub closes: u64,
}
