// The register, by parts of sixteen bytes. A part is read as two words, of which the first takes the register in. Each byte of a word is looked up
// by the steps from its place to the end of the part, and the results are taken together.
ghost use Rattle.std.specs.Prelude.{◌≡◌, ◌+◌, ◌-◌, ◌*◌, ◌/◌, ◌%◌, ◌^◌, ◌<◌, ◌≤◌, length, take, drop};
ghost use Rattle.std.specs.Int.{w32, from_le_bytes};
ghost use Rattle.std.specs.Int.Bits.{bit_xor};
ghost use Rattle.crc32c_tables.specs.Steps.{shift_bits};
ghost use Rattle.crc32c.specs.Crc.{into_byte, register_after};

// Where a table has the byte k of x.
fn place(x: u64, k: usize) -> usize
    requires { k < 8 }
    ensures { result ≡ (7 - k) * 256 + x / 2 ^ (8 * k) % 256 }
{
    (7 - k) * 256 + ((x >> (8 * k) as u32) % 256) as usize
}

// 64 steps of a word, the second of a part. It and `far` stay two: one over a table that is passed in would need a clause longer than the loop on
// what the table gives.
fn near(x: u64) -> u32
    ensures { result ≡ shift_bits 64 x }
{
    let mut r = 0;
    for k in (0..8).rev() {
        r ^= crc32c_tables::near(place(x, k));
    }
    r
}

// 128 steps of a word, the first of a part, onto what the second gave: the lookups that wait for the register then come last.
fn far(near: u32, x: u64) -> u32
    ensures { result ≡ bit_xor near (shift_bits 128 x) }
{
    let mut r = near;
    for k in (0..8).rev() {
        r ^= crc32c_tables::far(place(x, k));
    }
    r
}

// The word that two times four bytes make. By one u64::from_le_bytes it takes 60 instructions a part and not 54: a half's bytes are picked out cheaper.
fn word(low: &[u8; 4], high: &[u8; 4]) -> u64
    ensures { result ≡ from_le_bytes w32 low.now + from_le_bytes w32 high.now * 0x1_0000_0000 }
{
    u64::from(u32::from_le_bytes(*low)) + u64::from(u32::from_le_bytes(*high)) * 0x1_0000_0000
}

// The register after sixteen bytes.
pub(crate) fn sixteen(register: u32, s: &[u8; 16]) -> u32
    ensures { result ≡ register_after register s.now }
{
    let (halves, _) = s.as_chunks::<4>();
    let first = word(&halves[0], &halves[1]);
    let second = word(&halves[2], &halves[3]);
    far(near(second), u64::from(register) ^ first)
}

// The register after one byte, by its halves.
fn byte(register: u32, b: u8) -> u32
    ensures { result ≡ into_byte register b }
{
    let x = register ^ u32::from(b);
    (x >> 8)
        ^ crc32c_tables::high_half((x % 256 / 16) as usize)
        ^ crc32c_tables::low_half((x % 16) as usize)
}

// The register after the bytes s, one by one.
pub(crate) fn bytes(register: u32, s: &[u8]) -> u32
    ensures { result ≡ register_after register s.now }
{
    s.iter().fold(register, |r, b| byte(r, *b))
}
