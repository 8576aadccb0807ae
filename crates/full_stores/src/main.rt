#![tactic(auto)]

// The feed on a script that fills each of its stores exactly, and then goes one over: 64 parties, 64 links,
// 64 points, 16 notices.
// A program of its own, since a program has one stored script.
use std::io;

fn main(rt: HostRuntime) -> io::Result<()> {
    console::serve(&rt)
}
