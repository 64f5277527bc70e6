// Document 01's trials T1 to T14, run through the code: each answer is written as a line, and below it the message where one is written.
#![tactic(auto)]

ghost use Rattle.std.specs.Prelude.{◌≡◌, length};

use relay::{Range, Refusal, Section, View, append, body, forward, house, read, sequence_count};

// A tab, and a number. What is printed is written piece by piece: where one cannot be written, the program goes on with the next.
fn number(rt: HostRuntime, n: u64) {
    print!(rt; "\t").unwrap_or(());
    print!(rt; "{n}").unwrap_or(());
}

fn numbers(rt: HostRuntime, a: u32, b: u32) {
    number(rt, u64::from(a));
    number(rt, u64::from(b));
}

fn refused(rt: HostRuntime, r: Refusal) {
    print!(rt; "\trefused").unwrap_or(());
    number(rt, u64::from(u32::from(r.reason)));
    number(rt, r.place as u64);
}

fn part(rt: HostRuntime, range: Range) {
    numbers(rt, range.start, range.length);
}

// What an entry says; where it says none, nothing.
fn said(rt: HostRuntime, section: Section) {
    match section {
        Section::None => {}
        Section::Body(range) => {
            print!(rt; "\tbody").unwrap_or(());
            part(rt, range);
        }
        Section::Sequence {
            identifier,
            documents,
            number: count,
        } => {
            print!(rt; "\tsequence").unwrap_or(());
            part(rt, identifier);
            part(rt, documents);
            number(rt, u64::from(count));
        }
    }
}

fn accepted(rt: HostRuntime, v: View) {
    print!(rt; "\taccepted").unwrap_or(());
    numbers(rt, v.length, v.flags);
    part(rt, body(v));
    numbers(rt, sequence_count(v), v.elements);
    for entry in v.entries {
        said(rt, entry.section);
    }
}

// A trial's name and its answer: numbers of the view and its list, or `refused`, number and place.
fn line(rt: HostRuntime, name: &str, r: Result<View, Refusal>) {
    print!(rt; "{name}").unwrap_or(());
    match r {
        Ok(v) => accepted(rt, v),
        Err(r) => refused(rt, r),
    }
    println!(rt; "").unwrap_or(());
}

// A trial that reads the first n bytes of a message.
fn reads(rt: HostRuntime, name: &str, message: &[u8], n: usize) {
    if let Some(start) = message.get(..n) {
        line(rt, name, read(house(), start));
    }
}

// A message in hexadecimal.
fn hex(rt: HostRuntime, s: &[u8]) {
    for byte in s {
        print!(rt; "{byte:02x}").unwrap_or(());
    }
    println!(rt; "").unwrap_or(());
}

fn ping() -> [u8; 36]
    ensures { length result ≡ 36 }
{
    *b"\x24\x00\x00\x00\x07\x00\x00\x00\x00\x00\x00\x00\xDD\x07\x00\x00\x00\x00\x00\x00\x00\x0F\x00\x00\x00\x10ping\x00\x01\x00\x00\x00\x00"
}

// A trial that reads PING with another byte at a place.
fn changed(rt: HostRuntime, name: &str, at: usize, b: u8) {
    let mut message = ping();
    if let Some(byte) = message.get_mut(at) {
        *byte = b;
    }
    reads(rt, name, &message, 36);
}

fn lengths(rt: HostRuntime) {
    let mut message = ping();
    reads(rt, "T1", &message, 36);
    reads(rt, "T2", &message, 0);
    message[..4].fill(0xFF);
    reads(rt, "T3", &message, 36);
    message = ping();
    reads(rt, "T4", &message, 35);
}

fn opcodes_and_flags(rt: HostRuntime) {
    changed(rt, "T5", 12, 0xD3);
    changed(rt, "T6", 12, 0xD4);
    changed(rt, "T7", 16, 4);
}

fn forwarding(rt: HostRuntime) {
    let mut message = ping();
    message[18] = 2;
    let mut out = [0u8; 36];
    line(rt, "T8", forward(house(), &message, &mut out));
    hex(rt, &out);
}

fn sections(rt: HostRuntime) {
    let mut message = ping();
    message[0] = 20;
    reads(rt, "T9", &message, 20);
    changed(rt, "T10", 20, 2);
}

fn appending(rt: HostRuntime) {
    let message = ping();
    let mut out = [0u8; 48];
    line(
        rt,
        "T11",
        append(house(), &message, b"d", b"\x05\0\0\0\0", &mut out),
    );
    hex(rt, &out);
    let mut bodies_only = house();
    bodies_only.sequences = false;
    line(rt, "T12", read(bodies_only, &out));
}

fn clashing(rt: HostRuntime) {
    let message = ping();
    let mut out = [0u8; 48];
    line(rt, "T13", append(house(), &message, b"ping", b"", &mut out));
}

fn names(rt: HostRuntime) {
    reads(
        rt,
        "T14",
        b"\x2E\x00\x00\x00\x07\x00\x00\x00\x00\x00\x00\x00\xDD\x07\x00\x00\x00\x00\x00\x00\x00\x19\x00\x00\x00\x10ping\x00\x01\x00\x00\x00\x10ping\x00\x01\x00\x00\x00\x00",
        46,
    );
}

fn main(rt: HostRuntime) {
    lengths(rt);
    opcodes_and_flags(rt);
    forwarding(rt);
    sections(rt);
    appending(rt);
    clashing(rt);
    names(rt);
}
