// Numbers and texts in bytes: little-endian words, signed words, the search for a zero byte, the bytes from a place on.
#![tactic(auto)]

ghost use Rattle.std.specs.Prelude.{true, ◌≡◌, ◌+◌, ◌<◌, ◌≤◌, length, get_or, take, drop};
ghost use Rattle.wire.specs.Bytes.{word, under, signed, bits32, until_zero};

// The byte at place i; 0 past the end.
fn byte(s: &[u8], i: usize) -> u8
    ensures { result ≡ get_or s.now i 0 }
{
    s.get(i).copied().unwrap_or(0)
}

// The unsigned number that s begins with; bytes past the end count as 0.
#[tactic(auto, using(crate::proofs::Bytes::word_is))]
pub fn word(s: &[u8]) -> u32
    ensures { result ≡ word s.now }
{
    u32::from_le_bytes([byte(s, 0), byte(s, 1), byte(s, 2), byte(s, 3)])
}

// As a signed number w is below n.
#[tactic(auto, unfolding(crate::specs::Bytes::under))]
pub fn under(n: u32, w: u32) -> bool
    ensures { result ≡ under n w }
{
    w < n || w >= 0x8000_0000
}

// The signed number with the bits of w.
#[tactic(auto, using(crate::proofs::Bytes::signed_is))]
pub fn signed(w: u32) -> i32
    ensures { result ≡ signed w }
{
    w.cast_signed()
}

// The bits of a signed number.
#[tactic(auto, using(crate::proofs::Bytes::bits32_is))]
pub fn bits32(x: i32) -> u32
    ensures { result ≡ bits32 x }
{
    x.cast_unsigned()
}

// How many bytes stand before the first zero byte; all where there is none. A loop, as change request 3 wants it: its condition alone
// decides when the search for a name's end is over.
#[tactic(auto, using(crate::proofs::Bytes::searched))]
pub fn until_zero(s: &[u8]) -> usize
    ensures { result ≡ until_zero s.now }
{
    let mut i = 0;
    while i < s.len() && s[i] != 0 {
        i += 1;
    }
    i
}

// What until_zero tells, by four bytes at a time: for what may be long.
pub fn until_far_zero(s: &[u8]) -> usize
    ensures { result ≡ until_zero s.now }
{
    let (fours, _) = s.as_chunks::<4>();
    let clear = fours.iter().position(|four| four.contains(&0));
    let passed = clear.unwrap_or(fours.len()) * 4;
    passed + until_zero(&s[passed..])
}

// The n bytes from a place on, or those of them that there are.
pub fn stretch(s: &[u8], place: usize, n: usize) -> &[u8]
    ensures { result.now ≡ take n (drop place s.now) }
{
    let Some(rest) = s.get(place..) else {
        return &s[..0];
    };
    &rest[..n.min(rest.len())]
}
