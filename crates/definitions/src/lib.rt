// What the contracts of every crate above mean: the definitions in specs/, and here the types by value.
#![tactic(auto)]

ghost use Rattle.std.specs.Prelude.{◌≡◌};
ghost use Rattle.definitions.specs.Checked.{code_of, number_of};

// An epoch that is none: primitives.rs.
pub const FAR_FUTURE_EPOCH: u64 = 18446744073709551615;

// The places of a validator's ten numbers in the registry, in document 01's order: specs/Record.antt, `encode_one`.
pub const EFFECTIVE_BALANCE: usize = 0;

pub const SLASHED: usize = 1;

pub const ACTIVATION_ELIGIBILITY_EPOCH: usize = 2;

pub const ACTIVATION_EPOCH: usize = 3;

pub const EXIT_EPOCH: usize = 4;

pub const WITHDRAWABLE_EPOCH: usize = 5;

pub const BALANCE: usize = 6;

pub const PREVIOUS_EPOCH_PARTICIPATION: usize = 7;

pub const CURRENT_EPOCH_PARTICIPATION: usize = 8;

pub const INACTIVITY_SCORE: usize = 9;

// What goes in and comes back by value: the settings of a network, and the finality part of a record.

// The nineteen settings, in document 01's order and under the names of state_transition/context.rs.
#[repr(C)]
#[derive(Clone, Copy)]
pub struct Settings {
    pub slots_per_epoch: u64,
    pub slots_per_historical_root: u64,
    pub epochs_per_slashings_vector: u64,
    pub effective_balance_increment: u64,
    pub max_effective_balance: u64,
    pub hysteresis_quotient: u64,
    pub hysteresis_downward_multiplier: u64,
    pub hysteresis_upward_multiplier: u64,
    pub base_reward_factor: u64,
    pub min_epochs_to_inactivity_penalty: u64,
    pub inactivity_score_bias: u64,
    pub inactivity_score_recovery_rate: u64,
    pub inactivity_penalty_quotient_altair: u64,
    pub proportional_slashing_multiplier_altair: u64,
    pub max_seed_lookahead: u64,
    pub min_validator_withdrawability_delay: u64,
    pub ejection_balance: u64,
    pub min_per_epoch_churn_limit: u64,
    pub churn_limit_quotient: u64,
}

// How many of the activation queue an epoch lets in: as many as may exit, or (Deneb, EIP-7514) of these at most so many.
#[derive(Clone, Copy)]
pub enum ActivationLimit {
    Churn,
    AtMost(u64),
}

// An epoch and the root of its first block: phase0/operations.rs.
#[repr(C)]
#[derive(Clone, Copy)]
pub struct Checkpoint {
    pub epoch: u64,
    pub root: [u8; 32],
}

// Slot, bits and the three checkpoints: altair/beacon_state.rs. Bit i of justification_bits counts 2^i.
#[repr(C)]
#[derive(Clone, Copy)]
pub struct Finality {
    pub slot: u64,
    pub justification_bits: u64,
    pub previous_justified_checkpoint: Checkpoint,
    pub current_justified_checkpoint: Checkpoint,
    pub finalized_checkpoint: Checkpoint,
}

// What one validator gains and loses by one rule.
#[repr(C)]
#[derive(Clone, Copy)]
pub struct Deltas {
    pub reward: u64,
    pub penalty: u64,
}

// Why a call is refused: document 01, "What is returned", and document 02. Its number is specs/Checked.antt, `number_of`.
#[derive(Clone, Copy, PartialEq, Eq)]
pub enum Refusal {
    BadShape,
    BadSettings,
    BadRecord,
    NoRoot,
    Overflow,
    BadFile,
    SignedOverflow,
    WrongQueue,
    NoExit,
    TooEarly,
    FullList,
    LateStart,
    NoEntry,
    BeforeGenesis,
    NoSeconds,
}

impl Refusal {
    pub fn number(self) -> u64
        ensures { result ≡ number_of self }
    {
        match self {
            Refusal::BadShape => 1,
            Refusal::BadSettings => 2,
            Refusal::BadRecord => 3,
            Refusal::NoRoot => 4,
            Refusal::Overflow => 5,
            Refusal::BadFile => 6,
            Refusal::SignedOverflow => 7,
            Refusal::WrongQueue => 8,
            Refusal::NoExit => 9,
            Refusal::TooEarly => 10,
            Refusal::FullList => 11,
            Refusal::LateStart => 12,
            Refusal::NoEntry => 13,
            Refusal::BeforeGenesis => 14,
            Refusal::NoSeconds => 15,
        }
    }
}

// 0, or the refusal's number.
pub fn code(answer: Result<(), Refusal>) -> u64
    ensures { result ≡ code_of answer }
{
    match answer {
        Ok(()) => 0,
        Err(refusal) => refusal.number(),
    }
}

// The finality that comes back, and 0 or the refusal's number: on refusal it is the one handed in.
// The C interface needs the number beside the value.
#[repr(C)]
#[derive(Clone, Copy)]
pub struct FinalityAnswer {
    pub refusal: u64,
    pub finality: Finality,
}

// A total balance. `raised` is 1 where its plain sum was below one increment, so that the total was raised to it, and else 0.
#[repr(C)]
#[derive(Clone, Copy)]
pub struct Total {
    pub balance: u64,
    pub raised: u64,
}

// Whether the total of the active, and of those that hit the target of the previous and of the current epoch, was raised: 1 or 0.
#[repr(C)]
#[derive(Clone, Copy)]
pub struct Raised {
    pub active: u64,
    pub previous: u64,
    pub current: u64,
}

// What justification and the close answer: the finality and 0 or the refusal's number as in FinalityAnswer, and what was raised, which is
// nothing on refusal.
// The C interface needs the number beside the value.
#[repr(C)]
#[derive(Clone, Copy)]
pub struct CloseAnswer {
    pub refusal: u64,
    pub finality: Finality,
    pub raised: Raised,
}

// The two numbers that Bellatrix uses in place of the Altair two.
#[repr(C)]
#[derive(Clone, Copy)]
pub struct Bellatrix {
    pub inactivity_penalty_quotient_bellatrix: u64,
    pub proportional_slashing_multiplier_bellatrix: u64,
}

// What a close goes by: the settings, the fork (0 is Altair, 1 Bellatrix), and Bellatrix's pair, which only fork 1 reads.
#[repr(C)]
#[derive(Clone, Copy)]
pub struct Rules {
    pub settings: Settings,
    pub fork: u64,
    pub bellatrix: Bellatrix,
}

// The exit queue's pair: the largest exit epoch below FAR, or 0 where there is none, and how many validators have exactly it.
#[repr(C)]
#[derive(Clone, Copy)]
pub struct ExitQueue {
    pub last_epoch: u64,
    pub number: u64,
}

// 0 or the refusal's number, and the pair afterwards: on refusal it is the one handed in.
// The C interface needs the number beside the value.
#[repr(C)]
#[derive(Clone, Copy)]
pub struct QueueAnswer {
    pub refusal: u64,
    pub queue: ExitQueue,
}

// What justification answers: as CloseAnswer, and which of the four finality tests last set the checkpoint, 1 to 4, or 0.
// The C interface needs the number beside the value.
#[repr(C)]
#[derive(Clone, Copy)]
pub struct JustificationAnswer {
    pub refusal: u64,
    pub finality: Finality,
    pub raised: Raised,
    pub test: u64,
}

// What a close answers that is lent the exit queue's pair and a list of amounts: as JustificationAnswer, and the pair afterwards.
// The C interface needs the number beside the value.
#[repr(C)]
#[derive(Clone, Copy)]
pub struct FullAnswer {
    pub refusal: u64,
    pub finality: Finality,
    pub queue: ExitQueue,
    pub raised: Raised,
    pub test: u64,
}

// The answers as plain numbers, for C: 0 and what was asked for, or a refusal's number and zeros.

// The C interface needs the number beside the value.
#[repr(C)]
#[derive(Clone, Copy)]
pub struct PlainNumber {
    pub refusal: u64,
    pub value: u64,
}

// value is 1 for true and 0 for false
// The C interface needs the number beside the value.
#[repr(C)]
#[derive(Clone, Copy)]
pub struct PlainTruth {
    pub refusal: u64,
    pub value: u64,
}

// The C interface needs the number beside the value.
#[repr(C)]
#[derive(Clone, Copy)]
pub struct PlainDeltas {
    pub refusal: u64,
    pub reward: u64,
    pub penalty: u64,
}

// raised is 1 where the plain sum was below one increment
// The C interface needs the number beside the value.
#[repr(C)]
#[derive(Clone, Copy)]
pub struct PlainTotal {
    pub refusal: u64,
    pub balance: u64,
    pub raised: u64,
}

// The C interface needs the number beside the value.
#[repr(C)]
#[derive(Clone, Copy)]
pub struct PlainRoot {
    pub refusal: u64,
    pub root: [u8; 32],
}

// The net change as plain numbers, for C. `value` is from -2^63 to 2^63 - 1; the call that answers it makes it
// The C interface needs the number beside the value.
#[repr(C)]
#[derive(Clone, Copy)]
pub struct PlainChange {
    pub refusal: u64,
    pub value: i64,
}
