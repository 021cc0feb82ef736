// What a call about votes that are not yet counted answers.
#![tactic(auto)]

// The epochs that some filling finalizes, rising: the first `count` of finalized_epochs, zeros behind them. Then for each target epoch
// whether its two-thirds test passes: 0 in no filling, 1 in some, 2 in all. On refusal all but the number is 0.
// The C interface needs the number beside the value.
#[repr(C)]
#[derive(Clone, Copy)]
pub struct VotesAnswer {
    pub refusal: u64,
    pub count: u64,
    pub finalized_epochs: [u64; 3],
    pub previous_target: u64,
    pub current_target: u64,
}
