// Closes each record file that its arguments name, and prints the name and what the listing program prints of the file. A name that begins
// with `o` is that of a tried outage: what the program try_outage prints of it.
#![tactic(auto)]

use std::rt::Files;
use std::{env, fs, io};

fn main(rt: HostRuntime) -> io::Result<()> {
    for name in env::args(&rt)?.skip(1) {
        print_named(&rt, name.as_str())?;
    }
    Ok(())
}

fn is_outage(name: &str) -> bool {
    name.starts_with('o')
}

fn print_named(rt: &(impl Files + Print + Eprint), name: &str) -> io::Result<()> {
    rt.println(name)?;
    let Ok(mut file) = fs::open(rt, name) else {
        return rt.println("cannot be opened");
    };
    if is_outage(name) {
        console::outage_console::try_from(rt, &mut file);
    } else {
        console::close_from(rt, &mut file);
    }
    Ok(())
}
