// What a reader must believe of the close that a user calls, whole and by steps, with its pair, amounts and store: the definitions in specs/, and
// here the types by value.
#![tactic(auto)]

use definitions::{FullAnswer, Rules};

// What goes in and comes back by value of a close that is run one step a call.

// A close between its calls. `done` is how many of its nine calls are done, and 9 once it has ended, refused or not. `answer` is what the whole
// close answers, as far as it has come, and `orders` how many exit orders are in the list. Where `done` is 0 nothing else is read.
#[repr(C)]
#[derive(Clone, Copy)]
pub struct Running {
    pub done: u64,
    pub answer: FullAnswer,
    pub orders: u64,
}

// What every call of such a close answers: 0 or the refusal's number, 1 where the close had ended before the call and else 0, and the close as it
// is now. Where `ended` is 1 nothing was tested, and nothing changed.
// The C interface needs the number beside the value.
#[repr(C)]
#[derive(Clone, Copy)]
pub struct RunningAnswer {
    pub refusal: u64,
    pub ended: u64,
    pub running: Running,
}

// What the calls of a store of settings by starting epoch answer.

// The rules read, or a refusal's number and zeros.
// The C interface needs the number beside the value.
#[repr(C)]
#[derive(Clone, Copy)]
pub struct RulesAnswer {
    pub refusal: u64,
    pub rules: Rules,
}

// 0 or the refusal's number, and how many entries are in use afterwards.
// The C interface needs the number beside the value.
#[repr(C)]
#[derive(Clone, Copy)]
pub struct CountAnswer {
    pub refusal: u64,
    pub count: u64,
}
