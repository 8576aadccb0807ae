#![tactic(auto)]

// One script over four combinations of stores, side by side. What is answered does not depend on the
// make of register and outbox, only on the places that they have.
use calendars::Week;
use desk::{Desk, Reply};
use directory::{LinkEntry, PartyBook, PartyEntry};
use market::{Notice, Outbox, Point, Register};
use outboxes::{ByteRing, PlaceRing};
use registers::{PointTable, Roll, Split};
use std::alloc::{AllocError, Global};
use std::io::{BufRead, BufReader};

// The replies to the script's lines, over a register and an outbox.
fn replies<R: Register + Drop, O: Outbox + Drop>(
    heap: Global,
    register: R,
    outbox: O,
    script: &[Vec<u8>],
) -> Result<Vec<Reply>, AllocError> {
    let mut parties = [PartyEntry::BLANK; 8];
    let mut links = [LinkEntry::BLANK; 8];
    let mut directory = PartyBook::new(&mut parties, &mut links);
    let week = Week { holidays: &[] };
    let mut desk = Desk::new(register, outbox, &mut directory, week);
    let mut replies = Vec::new(heap);
    for line in script {
        replies.push(desk.line(line.as_slice()))?;
    }
    Ok(replies)
}

fn table_and_ring(heap: Global, script: &[Vec<u8>]) -> Result<Vec<Reply>, AllocError> {
    let mut points = [Point::BLANK; 6];
    let mut bytes = [0u8; 160];
    replies(
        heap,
        PointTable::new(&mut points),
        ByteRing::new(&mut bytes),
        script,
    )
}

fn roll_and_places(heap: Global, script: &[Vec<u8>]) -> Result<Vec<Reply>, AllocError> {
    let mut points = [Point::BLANK; 6];
    let mut notices = [Notice::BLANK; 10];
    replies(
        heap,
        Roll::new(&mut points),
        PlaceRing::new(&mut notices),
        script,
    )
}

// Three places below 100, three from it up.
fn split_and_ring(heap: Global, script: &[Vec<u8>]) -> Result<Vec<Reply>, AllocError> {
    let mut low = [Point::BLANK; 3];
    let mut high = [Point::BLANK; 3];
    let mut bytes = [0u8; 160];
    let split = Split::new(PointTable::new(&mut low), Roll::new(&mut high), 100);
    replies(heap, split, ByteRing::new(&mut bytes), script)
}

// Two places below 50, one below 100, one below 200, and two from it up.
fn splits_and_places(heap: Global, script: &[Vec<u8>]) -> Result<Vec<Reply>, AllocError> {
    let mut lowest = [Point::BLANK; 2];
    let mut low = [Point::BLANK; 1];
    let mut high = [Point::BLANK; 1];
    let mut highest = [Point::BLANK; 2];
    let mut notices = [Notice::BLANK; 10];
    let below = Split::new(PointTable::new(&mut lowest), Roll::new(&mut low), 50);
    let above = Split::new(Roll::new(&mut high), PointTable::new(&mut highest), 200);
    let split = Split::new(below, above, 100);
    replies(heap, split, PlaceRing::new(&mut notices), script)
}

fn run(rt: &HostRuntime) -> anyhow::Result<()> {
    let heap = rt.alloc();
    let mut script = Vec::new(heap);
    for line in BufReader::new(heap, rt.stdin())?.split(heap, b'\n') {
        script.push(line?)?;
    }
    let a = table_and_ring(heap, &script)?;
    let b = roll_and_places(heap, &script)?;
    let c = split_and_ring(heap, &script)?;
    let d = splits_and_places(heap, &script)?;
    println!(rt; "line: table + ring | roll + places | split + ring | split of splits + places")?;
    for (i, (((a, b), c), d)) in a.iter().zip(&b).zip(&c).zip(&d).enumerate() {
        println!(rt; "{}: {a} | {b} | {c} | {d}", i + 1)?;
    }
    Ok(())
}

fn main(rt: HostRuntime) -> anyhow::Result<()> {
    run(&rt)
}
