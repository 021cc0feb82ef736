// Reads a record file from standard input and prints its close, or `refused` and the number.
#![tactic(auto)]

fn main(rt: HostRuntime) {
    console::close_from(&rt, &mut rt.stdin());
}
