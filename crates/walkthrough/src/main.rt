#![tactic(auto)]

// The feed on a longer script: two first registrations to their completion, every refusal that the
// calls can give, and every fault.
// A program of its own, since a program has one stored script.
use std::io;

fn main(rt: HostRuntime) -> io::Result<()> {
    console::serve(&rt)
}
