//! A feed over standard input and output: the stores it holds, and the loop over its lines.
//!
//! What is printed is what `desk` promises of each line; that the lines are read and printed is run
//! and compared, since no promise can speak of input and output.
#![tactic(auto)]

use calendars::Week;
use desk::Desk;
use directory::{LinkEntry, PartyBook, PartyEntry};
use market::Point;
use outboxes::ByteRing;
use registers::PointTable;
use std::io;
use std::io::{BufRead, BufReader};

// Answers every line of standard input with one line of standard output.
pub fn serve(rt: &HostRuntime) -> io::Result<()> {
    let mut points = [Point::BLANK; 64];
    let mut parties = [PartyEntry::BLANK; 64];
    let mut links = [LinkEntry::BLANK; 64];
    let mut bytes = [0u8; 256];
    let register = PointTable::new(&mut points);
    let outbox = ByteRing::new(&mut bytes);
    let mut directory = PartyBook::new(&mut parties, &mut links);
    let week = Week { holidays: &[] };
    let mut desk = Desk::new(register, outbox, &mut directory, week);
    for line in BufReader::new(rt.alloc(), rt.stdin())?.split(rt.alloc(), b'\n') {
        let line = line?;
        let reply = desk.line(line.as_slice());
        println!(rt; "{reply}")?;
    }
    Ok(())
}
