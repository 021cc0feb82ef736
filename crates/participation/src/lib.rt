// Two steps that go by participation: the inactivity scores, and the flags handed on from the current epoch to the previous.
#![tactic(auto)]

pub mod inactivity;
pub mod participation_flags;
