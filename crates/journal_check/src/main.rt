// Reads journals that stand for the cases of the format, and prints a line for each record and for what ends the reading; then
// writes records and prints the bytes. The file stdout holds what documents 01 and 02 say of them.
#![tactic(auto)]

ghost use Rattle.std.specs.Prelude.{◌≤◌, ◌<◌};

use journal::{Found, Record, RefusedAt};
use std::io;

fn main(rt: HostRuntime) {
    list(
        &rt,
        b"\x01\x02\x02\x00\x00\x01\x02\x01\x00\x00\x02\x02\x00\x00\x04\x07\x00\x03\x03\x00\x01\x00",
    );
    kinds(&rt);
    ends(&rt);
    limits(&rt);
    offsets(&rt);
    writes(&rt);
}

// Every field at its largest; then numbers whose two bytes differ.
fn kinds(rt: &HostRuntime) {
    list(
        rt,
        b"\x01\xff\x02\xff\xff\xff\x03\xff\xff\xff\xff\x04\xff\xff\x05\xff\xff\xff\x09\xff\xff\xff\x0a\x0b\xff\xff",
    );
    list(
        rt,
        b"\x01\x00\x02\x02\x01\x03\x03\x02\x01\x04\x03\x04\x02\x01\x05\x02\x01\x03\x09\x02\x01\x03\x0a\x0b\x02\x01",
    );
}

// What ends a reading: no journal, another kind first, unknown kinds, a record of each kind that has a body cut off, a second
// open, whole and cut off. Then an admit, which has none, as the last byte.
fn ends(rt: &HostRuntime) {
    let journals = [
        b"".as_slice(),
        b"\x02\x00\x00\x01",
        b"\x01\x05\x00\x00",
        b"\x01\x05\x06",
        b"\x01\x05\x07",
        b"\x01\x05\x08",
        b"\x01\x05\x0c",
        b"\x01",
        b"\x01\x05\x02\x00\x00",
        b"\x01\x05\x03\x00\x00\x00",
        b"\x01\x05\x04\x00",
        b"\x01\x05\x05\x00\x00",
        b"\x01\x05\x09\x00\x00",
        b"\x01\x05\x0b\x00",
        b"\x01\x05\x01\x05",
        b"\x01\x05\x01",
        b"\x01\x05\x0a",
    ];
    for journal in journals {
        list(rt, journal);
    }
}

// The most bytes that a journal has, and one more, with and without an open.
fn limits(rt: &HostRuntime) {
    zeros::<65536>(rt);
    zeros::<65537>(rt);
}

// A journal of N zeros, and then with an open in front. This and `offsets` stay out of line: in line their arrays would stand in one frame, beside one
// another.
#[inline(never)]
fn zeros<const N: usize>(rt: &HostRuntime)
    requires { (0 < N) × (N ≤ 65537) }
{
    let mut journal = [0u8; N];
    list(rt, &journal);
    journal[0] = 1;
    list(rt, &journal);
}

// Offsets at a record, inside one, at the end and past it; and past the end of journals that 11 and 16 refuse.
#[inline(never)]
fn offsets(rt: &HostRuntime) {
    let journal = b"\x01\x02\x04\x07\x00";
    for offset in 0..7 {
        show(rt, journal, offset);
    }
    show(rt, journal, usize::MAX);
    show(rt, b"", 1);
    show(rt, &[1u8; 65537], 65538);
}

// A record of each kind in five bytes; then one that just fits in four, and one that does not.
fn writes(rt: &HostRuntime) {
    let level_3 = Record::GrantLevel {
        tenant: 258,
        level: 3,
    };
    let pages_772 = Record::GrantPages {
        tenant: 258,
        pages: 772,
    };
    let one_of_each = [
        Record::Open { height: 12 },
        level_3,
        pages_772,
        Record::Release { tenant: 4095 },
        Record::Grow {
            tenant: 258,
            level: 3,
        },
        Record::Join {
            tenant: 258,
            level: 3,
        },
        Record::Admit,
        Record::Withdraw { tenant: 4095 },
    ];
    for rec in one_of_each {
        write_in(rt, &mut [9; 5], rec);
    }
    write_in(rt, &mut [9; 4], level_3);
    write_in(rt, &mut [9; 4], pages_772);
}

// The records of a journal, each with its offset, and what ends the reading.
fn list(rt: &HostRuntime, journal: &[u8]) {
    let mut offset = 0;
    while let Ok(Some(found)) = journal::read_at(journal, offset) {
        show(rt, journal, offset);
        offset = found.next;
    }
    show(rt, journal, offset);
}

// What stands at one offset. What cannot be written is missing there, and nothing else is said of it.
fn show(rt: &HostRuntime, journal: &[u8], offset: usize) {
    let _ = match journal::read_at(journal, offset) {
        Ok(Some(Found { record, .. })) => print_record(rt, offset, record),
        Ok(None) => println!(rt; "{offset} end"),
        Err(RefusedAt { refusal, offset }) => println!(rt; "! {offset} {}", u16::from(refusal)),
    };
}

fn print_record(rt: &HostRuntime, offset: usize, rec: Record) -> io::Result<()> {
    match rec {
        Record::Open { height } => println!(rt; "{offset} open {height}"),
        Record::GrantLevel { tenant, level } => println!(rt;
            "{offset} grant {tenant} level {level}"
        ),
        Record::GrantPages { tenant, pages } => println!(rt;
            "{offset} grant {tenant} pages {pages}"
        ),
        Record::Release { tenant } => println!(rt; "{offset} release {tenant}"),
        Record::Grow { tenant, level } => println!(rt; "{offset} grow {tenant} level {level}"),
        Record::Join { tenant, level } => println!(rt; "{offset} join {tenant} level {level}"),
        Record::Admit => println!(rt; "{offset} admit"),
        Record::Withdraw { tenant } => println!(rt; "{offset} withdraw {tenant}"),
    }
}

// Writes a record into lent bytes, and prints how many it takes, or the refusal, and then the bytes.
fn write_in(rt: &HostRuntime, out: &mut [u8], rec: Record) {
    let _ = match journal::write(rec, out) {
        Ok(length) => print!(rt; "{length}"),
        Err(refusal) => print!(rt; "! {}", u16::from(refusal)),
    };
    for byte in out {
        let _ = print!(rt; " {byte}");
    }
    let _ = println!(rt);
}
