// What goes in and comes back by value under Electra: its settings, the record's numbers of both queues, and the answers of its calls. The
// definitions stand in specs/.
#![tactic(auto)]

use definitions::{Bellatrix, Settings};

// The five numbers that Electra adds, in the order of document 03, F-2.
#[repr(C)]
#[derive(Clone, Copy)]
pub struct Electra {
    pub min_activation_balance: u64,
    pub max_effective_balance_electra: u64,
    pub min_per_epoch_churn_limit_electra: u64,
    pub max_per_epoch_activation_exit_churn_limit: u64,
    pub max_pending_deposits_per_epoch: u64,
}

// What an Electra close goes by.
#[repr(C)]
#[derive(Clone, Copy)]
pub struct ElectraRules {
    pub settings: Settings,
    pub bellatrix: Bellatrix,
    pub electra: Electra,
}

// What the record holds of the exit queue: what may still leave at the earliest exit epoch, and that epoch.
#[repr(C)]
#[derive(Clone, Copy)]
pub struct ExitChurn {
    pub exit_balance_to_consume: u64,
    pub earliest_exit_epoch: u64,
}

// A deposit of the queue, in the order in which its five numbers are lent. compounding is 1 where its credentials begin with 0x02, valid where its
// signature is valid, and else 0.
#[repr(C)]
#[derive(Clone, Copy)]
pub struct PendingDeposit {
    pub pubkey: u64,
    pub compounding: u64,
    pub amount: u64,
    pub slot: u64,
    pub valid: u64,
}

// What the record holds of the deposits' queue by value: what the last close left to be processed, and how far the bridge's deposits have come.
#[repr(C)]
#[derive(Clone, Copy)]
pub struct DepositNumbers {
    pub deposit_balance_to_consume: u64,
    pub eth1_deposit_index: u64,
    pub deposit_requests_start_index: u64,
}

// 0 or a refusal's number, and the record's two numbers of the exit queue afterwards: on refusal those that were handed in.
// The C interface needs the number beside the value.
#[repr(C)]
#[derive(Clone, Copy)]
pub struct ExitChurnAnswer {
    pub refusal: u64,
    pub churn: ExitChurn,
}

// 0 or a refusal's number; what the next close may process more, how many validators there are, and how many deposits are left in the queue. On
// refusal: as the opening has them.
// The C interface needs the number beside the value.
#[repr(C)]
#[derive(Clone, Copy)]
pub struct DepositsAnswer {
    pub refusal: u64,
    pub deposit_balance_to_consume: u64,
    pub validators: u64,
    pub deposits: u64,
}

// 0 or a refusal's number, and how many consolidations are left in the queue: on refusal all.
// The C interface needs the number beside the value.
#[repr(C)]
#[derive(Clone, Copy)]
pub struct ConsolidationsAnswer {
    pub refusal: u64,
    pub consolidations: u64,
}
