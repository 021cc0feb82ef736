// Reads a record file, a number of epochs, a root and each validator's absence from standard input, and prints the closes of those epochs.
#![tactic(auto)]

fn main(rt: HostRuntime) {
    console::outage_console::try_from(&rt, &mut rt.stdin());
}
