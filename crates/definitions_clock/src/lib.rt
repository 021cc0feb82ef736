// A network's clock: what every call of the clock is given, under the names of clock.rs.
#![tactic(auto)]

#[repr(C)]
#[derive(Clone, Copy)]
pub struct Clock {
    pub genesis_time: u64,
    pub seconds_per_slot: u64,
    pub slots_per_epoch: u64,
}
