// Characters of one byte, which is below 0x80.
#![tactic(auto)]

ghost use Rattle.std.specs.Prelude.{◌≡◌, true, ◌<◌, ◌≤◌, ℕ, false, length, get_or};
ghost use Rattle.utf8_ascii.specs.Inner.{Ascii, AllPlain, PlainRun};

use wire::word;

// The first four bytes of s are such.
#[tactic(auto, using(crate::proofs::OneByte::four_ascii))]
fn four(s: &[u8]) -> bool
    ensures { result ≡ true → Ascii 4 s.now }
{
    word(s) & 0x8080_8080 == 0
}

// A run of them, eight at a time.
fn eights(s: &[u8]) -> usize
    ensures inside { result ≤ length s.now }
    ensures is { Ascii result s.now }
{
    let (eights, _) = s.as_chunks::<8>();
    let ascii = eights.iter().position(|eight| other(eight));
    ascii.unwrap_or(eights.len()) * 8
}

// One of eight bytes is none.
fn other(eight: &[u8; 8]) -> bool
    ensures { result ≡ false → Ascii 8 eight.now }
{
    u64::from_le_bytes(*eight) & 0x8080_8080_8080_8080 != 0
}

// A run of them, sixty-four at a time. With one test for both sizes, a run of 12 bytes takes 53 instructions (the fold) or 69 (is_ascii) and not 40.
fn blocks(s: &[u8]) -> usize
    ensures inside { result ≤ length s.now }
    ensures is { Ascii result s.now }
{
    let (blocks, _) = s.as_chunks::<64>();
    let ascii = blocks.iter().position(|block| other_among(block));
    ascii.unwrap_or(blocks.len()) * 64
}

// One of many bytes is none. All are taken together, so no test hangs on another.
fn other_among(block: &[u8]) -> bool
    ensures { result ≡ false → (i : ℕ) → get_or block.now i 0 < 0x80 }
{
    block.iter().fold(0, |all, b| all | *b) >= 0x80
}

// A run of them, sixty-four at a time where the first thirty-two are such: most runs are short.
fn words(s: &[u8]) -> usize
    ensures inside { result ≤ length s.now }
    ensures is { Ascii result s.now }
{
    if s.len() < 32 {
        return eights(s);
    }
    let i = eights(&s[..32]);
    if i < 32 {
        return i;
    }
    let j = 32 + blocks(&s[32..]);
    j + eights(&s[j..])
}

// Some of them, where s begins with one: that one alone, or four and the run behind them.
#[tactic(auto, using(crate::proofs::OneByte::parts))]
pub fn run(s: &[u8]) -> usize
    requires { (0 < length s.now) × (get_or s.now 0 0 < 0x80) }
    ensures inside { (0 < result) × (result ≤ length s.now) }
    ensures is { Ascii result s.now }
{
    if s.len() < 4 || !four(s) {
        return 1;
    }
    4 + words(&s[4..])
}

// A byte is one, other than zero.
fn plain(x: u8) -> bool
    ensures { result ≡ true → (0 < x) × (x < 0x80) }
{
    0 < x && x < 0x80
}

// How many of them, other than zero, s begins with. A loop, as change request 3 wants it: its condition alone decides when the search for
// a name's end is over.
pub fn until_zero(s: &[u8]) -> usize
    ensures { PlainRun result s.now }
{
    let mut i = 0;
    while i < s.len() && plain(s[i]) {
        i += 1;
    }
    i
}

// Four of them, other than zero.
fn plain_four(four: &[u8; 4]) -> bool
    ensures { result ≡ true → AllPlain four.now }
{
    four.iter().all(|b| plain(*b))
}

// What until_zero tells, by four bytes at a time; the first that are not all such, and the bytes behind the last four, it tells itself.
pub fn plain_run(s: &[u8]) -> usize
    ensures { PlainRun result s.now }
{
    let (fours, _) = s.as_chunks::<4>();
    let clear = fours.iter().position(|four| !plain_four(four));
    let passed = clear.unwrap_or(fours.len()) * 4;
    passed + until_zero(&s[passed..])
}
