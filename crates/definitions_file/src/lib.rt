// What a reader must believe of record files, their listing, a shelf of them and a tried outage: the definitions in specs/, and here the types by
// value.
#![tactic(auto)]

use definitions::{ExitQueue, Finality, Raised, Settings};

// Where the parts of a record file of version 2 stand: specs/File.antt. Version 1 has no pair, and the validators in its place.
pub const SETTINGS_AT: usize = 80;

pub const FINALITY_AT: usize = 232;

pub const QUEUE_AT: usize = 368;

pub const VALIDATORS_AT: usize = 384;

// The most bytes of input that the programs take, and the most that they print of one.
pub const MOST_INPUT: usize = 65536;

pub const LONGEST_LISTING: usize = 103585;

pub const LONGEST_OUTAGE: usize = 964000;

// What reading a record file answers.

// How long the buffers of a read must be: ten numbers a validator, one a slashing. Or refusal 6, and zeros.
// The C interface needs the number beside the value.
#[repr(C)]
#[derive(Clone, Copy)]
pub struct Header {
    pub refusal: u64,
    pub validators: u64,
    pub roots: u64,
    pub slashings: u64,
}

// What a read answers by value: 0 or the refusal's number, where it stopped, and zeros where it is refused.
// The C interface needs the number beside the value.
#[repr(C)]
#[derive(Clone, Copy)]
pub struct ReadAnswer {
    pub refusal: u64,
    pub position: u64,
    pub settings: Settings,
    pub finality: Finality,
    pub queue: ExitQueue,
}

// What the lines of a listing tell, by value.

// Of the first line, or a refusal's number and zeros.
// The C interface needs the number beside the value.
#[repr(C)]
#[derive(Clone, Copy)]
pub struct Head {
    pub refusal: u64,
    pub epoch: u64,
    pub justified_epoch: u64,
    pub finalized_epoch: u64,
    pub justification_bits: u64,
    pub charged: u64,
    pub raised: Raised,
}

// Of one validator's line, or a refusal's number and zeros.
// The C interface needs the number beside the value.
#[repr(C)]
#[derive(Clone, Copy)]
pub struct Line {
    pub refusal: u64,
    pub index: u64,
    pub opening_balance: u64,
    pub closing_balance: u64,
    pub effective_balance: u64,
    pub inactivity_score: u64,
    pub net_change: i64,
}
