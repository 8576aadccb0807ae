#![tactic(auto)]

// Reads lines from standard input, and answers each on standard output.
// A program of its own, since a program has one stored script.
use std::io;

fn main(rt: HostRuntime) -> io::Result<()> {
    console::serve(&rt)
}
