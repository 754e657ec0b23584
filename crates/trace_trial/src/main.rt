// Damaged and limit files, read and told one to a line; and what the writer refuses.
#![tactic(auto)]

mod files;

use events::{Action, Event};
use files::{empties, reads};
use handmade::{single, told};
use trace::{Reader, read_front, read_whole, write};

// How a file reads: its events and sections, or why it does not.
fn show(rt: &HostRuntime, name: &str, bytes: &[u8]) -> anyhow::Result<()> {
    match read_whole(rt.alloc(), bytes) {
        Ok(trace) => {
            let events = trace.events.len();
            let sections = trace.counts.len();
            println!(rt; "{name}: events {events} sections {sections}")?;
        }
        Err(error) => println!(rt; "{name}: {error}")?,
    }
    Ok(())
}

fn headers(rt: &HostRuntime) -> anyhow::Result<()> {
    let files: [(&str, &[u8]); 9] = [
        ("no bytes", &[]),
        ("three bytes", &[1, 0, 0]),
        ("edition 2", &[2, 0, 0, 0]),
        ("edition 257", &[1, 1, 0, 0]),
        ("no sections", &[1, 0, 0, 0]),
        ("a byte behind no sections", &[1, 0, 0, 0, 0]),
        ("256 sections told of", &[1, 0, 0, 1]),
        ("257 sections told of", &[1, 0, 1, 1]),
        ("contents cut", &[1, 0, 1, 0, 12, 0, 0, 0, 0, 0, 0]),
    ];
    for (name, bytes) in files {
        show(rt, name, bytes)?;
    }
    show(rt, "256 sections", empties(rt.alloc(), 256)?.as_slice())?;
    show(rt, "257 sections", empties(rt.alloc(), 257)?.as_slice())
}

fn entries(rt: &HostRuntime) -> anyhow::Result<()> {
    let heap = rt.alloc();
    let files: [(&str, u16, &[(u32, u32)]); 8] = [
        ("offset one short", 1, &[(11, 3)]),
        ("offset one long", 1, &[(13, 3)]),
        ("length one long", 1, &[(12, 4)]),
        ("greatest length", 1, &[(12, u32::MAX)]),
        ("a byte behind the body", 1, &[(12, 2)]),
        ("second offset one short", 2, &[(20, 3), (22, 0)]),
        ("second length one long", 2, &[(20, 0), (20, 4)]),
        ("a gap between bodies", 2, &[(20, 1), (22, 1)]),
    ];
    for (name, sections, entries) in files {
        let file = told(heap, sections, entries, &[0, 0, 5])?;
        show(rt, name, file.as_slice())?;
    }
    let mut long = reads(heap, 21_836)?;
    show(rt, "65536 bytes", long.as_slice())?;
    long.push(0)?;
    show(rt, "65537 bytes", long.as_slice())
}

fn bodies(rt: &HostRuntime) -> anyhow::Result<()> {
    let heap = rt.alloc();
    let bodies: [(&str, &[u8]); 2] = [
        ("kind 10", &[0, 0, 5, 10, 0, 5]),
        ("kind 255 alone", &[255]),
    ];
    for (name, body) in bodies {
        show(rt, name, single(heap, body)?.as_slice())?;
    }
    show(
        rt,
        "event split over two sections",
        told(heap, 2, &[(20, 2), (22, 1)], &[0, 0, 5])?.as_slice(),
    )?;
    show(
        rt,
        "event behind two empty sections",
        reads(heap, 1)?.as_slice(),
    )?;
    let commit = [9, 1, 1, 2, 3, 4, 5, 6, 7, 8, 9, 10, 11, 12, 13, 14, 15, 16];
    for cut in 0..=18 {
        show(rt, "commit cut", single(heap, &commit[0..cut])?.as_slice())?;
    }
    Ok(())
}

// What a file holds up to its end or its first refusal: how many events each section has, and how it ends.
fn show_front(rt: &HostRuntime, name: &str, bytes: &[u8]) -> anyhow::Result<()> {
    let front = read_front(rt.alloc(), bytes)?;
    let events = front.trace.events.len();
    print!(rt; "{name}: events {events}, by section")?;
    for count in &front.trace.counts {
        print!(rt; " {count}")?;
    }
    match front.end {
        Some(refusal) => println!(rt; ", then {refusal}")?,
        None => println!(rt; ", then the end")?,
    }
    Ok(())
}

fn fronts(rt: &HostRuntime) -> anyhow::Result<()> {
    let heap = rt.alloc();
    let files: [(&str, &[(u32, u32)], &[u8]); 4] = [
        (
            "refused behind an empty section",
            &[(28, 0), (28, 3), (31, 1)],
            &[0, 0, 5, 255],
        ),
        (
            "refused before an empty section",
            &[(28, 4), (32, 3), (35, 0)],
            &[0, 0, 5, 255, 1, 0, 5],
        ),
        (
            "empty last sections",
            &[(28, 3), (31, 0), (31, 0)],
            &[0, 0, 5],
        ),
        ("wrong last entry", &[(28, 3), (31, 0), (30, 0)], &[0, 0, 5]),
    ];
    for (name, entries, body) in files {
        show_front(rt, name, told(heap, 3, entries, body)?.as_slice())?;
    }
    Ok(())
}

// A refused event is found again at the same place, however often it is asked for.
fn again(rt: &HostRuntime) -> anyhow::Result<()> {
    let file = single(rt.alloc(), &[0, 0, 5, 9, 0])?;
    let mut reader = Reader::new(file.as_slice());
    for _ in 0..4 {
        let taken = reader.next().is_ok();
        let at = reader.place();
        let section = at.section;
        let events = at.events;
        let byte = at.byte;
        println!(rt; "taken {taken}, then section {section} events {events} byte {byte}")?;
    }
    Ok(())
}

// What the writer answers, and whether it kept the buffer where it should.
fn wrote(rt: &HostRuntime, events: &[Event], counts: &[usize], room: usize) -> anyhow::Result<()> {
    let mut out = vec![in rt.alloc(); 170u8; room]?;
    let sections = counts.len();
    let many = events.len();
    match write(events, counts, out.as_mut_slice()) {
        Ok(length) => {
            let kept = out.iter().skip(length).copied().max().unwrap_or(170);
            println!(rt; "write {many} in {sections} into {room}: {length}, past it {kept}")?;
        }
        Err(fault) => {
            let number = fault.number();
            let kept = out.iter().copied().min().unwrap_or(170);
            println!(rt;
                "write {many} in {sections} into {room}: refused {number}, all of it {kept}"
            )?;
        }
    }
    Ok(())
}

fn writes(rt: &HostRuntime) -> anyhow::Result<()> {
    let read = Event {
        thread: 0,
        action: Action::Read { place: 5 },
    };
    let some = [read, read];
    let many = vec![in rt.alloc(); read; 21_836]?;
    let most = vec![in rt.alloc(); 0usize; 256]?;
    let over = vec![in rt.alloc(); 0usize; 257]?;
    let rows: [(&[Event], &[usize], usize); 11] = [
        (&some, &[2], 18),
        (&some, &[2], 17),
        (&some, &[0, 1, 0, 1], 60),
        (&some, &[1], 60),
        (&some, &[3], 60),
        (&some, &[usize::MAX, 3], 60),
        (&[], &[], 4),
        (&[], most.as_slice(), 2_052),
        (&[], over.as_slice(), 3_000),
        (many.as_slice(), &[0, 0, 21_836], 65_536),
        (many.as_slice(), &[0, 0, 0, 21_836], 65_544),
    ];
    for (events, counts, room) in rows {
        wrote(rt, events, counts, room)?;
    }
    Ok(())
}

fn main(rt: HostRuntime) -> anyhow::Result<()> {
    headers(&rt)?;
    entries(&rt)?;
    bodies(&rt)?;
    fronts(&rt)?;
    again(&rt)?;
    writes(&rt)
}
