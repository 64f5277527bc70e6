// Runs the published vectors of CRC-32C, those of RFC 3720, appendix B.4, among them, and writes each checksum; and one of them refreshed.
#![tactic(auto)]

// A name, a tab, a checksum in hexadecimal, and the end of the line, each written by itself: where one cannot be written, the program goes on
// with the next.
fn line(rt: HostRuntime, name: &str, checksum: u32) {
    print!(rt; "{name}").unwrap_or(());
    print!(rt; "\t").unwrap_or(());
    print!(rt; "{checksum:08x}").unwrap_or(());
    println!(rt; "").unwrap_or(());
}

fn vector(rt: HostRuntime, name: &str, s: &[u8]) {
    line(rt, name, crc32c::crc(s));
}

// The checksum of some bytes, taken in two parts.
fn in_two_parts(rt: HostRuntime, name: &str, first: &[u8], second: &[u8]) {
    let register = crc32c::update(crc32c::update(0xFFFF_FFFF, first), second);
    line(rt, name, !register);
}

fn main(rt: HostRuntime) {
    vector(rt, "nothing", b"");
    vector(rt, "123456789", b"123456789");
    vector(rt, "32 bytes 00", &[0u8; 32]);
    vector(rt, "32 bytes FF", &[0xFFu8; 32]);
    vector(
        rt,
        "ascending",
        b"\x00\x01\x02\x03\x04\x05\x06\x07\x08\x09\x0A\x0B\x0C\x0D\x0E\x0F\x10\x11\x12\x13\x14\x15\x16\x17\x18\x19\x1A\x1B\x1C\x1D\x1E\x1F",
    );
    vector(
        rt,
        "descending",
        b"\x1F\x1E\x1D\x1C\x1B\x1A\x19\x18\x17\x16\x15\x14\x13\x12\x11\x10\x0F\x0E\x0D\x0C\x0B\x0A\x09\x08\x07\x06\x05\x04\x03\x02\x01\x00",
    );
    vector(
        rt,
        "iSCSI read command",
        b"\x01\xC0\x00\x00\x00\x00\x00\x00\x00\x00\x00\x00\x00\x00\x00\x00\x14\x00\x00\x00\x00\x00\x04\x00\x00\x00\x00\x14\x00\x00\x00\x18\x28\x00\x00\x00\x00\x00\x00\x00\x02\x00\x00\x00\x00\x00\x00\x00",
    );
    in_two_parts(
        rt,
        "the same in two parts",
        b"\x01\xC0\x00\x00\x00\x00\x00\x00\x00\x00\x00\x00\x00\x00\x00\x00\x14\x00\x00",
        b"\x00\x00\x00\x04\x00\x00\x00\x00\x14\x00\x00\x00\x18\x28\x00\x00\x00\x00\x00\x00\x00\x02\x00\x00\x00\x00\x00\x00\x00",
    );
    line(
        rt,
        "with 15 for 14 at 16, refreshed",
        crc32c_refresh::refresh(0xD996_3A56, 0x14, 0x15, 28),
    );
    vector(
        rt,
        "the same, read anew",
        b"\x01\xC0\x00\x00\x00\x00\x00\x00\x00\x00\x00\x00\x00\x00\x00\x00\x15\x00\x00\x00\x00\x00\x04\x00\x00\x00\x00\x14\x00\x00\x00\x18\x28\x00\x00\x00\x00\x00\x00\x00\x02\x00\x00\x00\x00\x00\x00\x00",
    );
}
