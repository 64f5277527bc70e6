// Text that is read: how much of it is UTF-8, and where a zero byte ends it.
#![tactic(auto)]

ghost use Rattle.std.specs.Prelude.{true, ◌≡◌, ◌<◌, ◌≤◌, length, get_or};
ghost use Rattle.wire.specs.Bytes.{until_zero};
ghost use Rattle.utf8.specs.Text.{well_formed};
ghost use Rattle.utf8_text.specs.Inner.{Passes, Ended};

use wire::{until_far_zero, until_zero};

mod characters;
mod runs;

// Why no text ends at a zero byte: there is none; or the bytes before it are UTF-8 up to that one alone.
#[derive(Clone, Copy, Debug, PartialEq, Eq)]
pub enum TextError {
    Unended,
    IllFormed(usize),
}

// A character of two bytes, with a run of such behind it; 0 where there is none.
fn two_and_run(s: &[u8]) -> usize
    requires { (0 < length s.now) × (0x80 ≤ get_or s.now 0 0) × (get_or s.now 0 0 < 0xE0) }
    ensures passes { Passes result s.now }
    ensures stops { result ≡ 0 → well_formed s.now ≡ 0 }
{
    let n = characters::of_two(s);
    if n == 2 {
        return 2 + runs::narrow(&s[2..]);
    }
    n
}

// A character of three bytes, with a run of such behind it, or of four; 0 where there is none.
fn more_and_run(s: &[u8]) -> usize
    requires { (0 < length s.now) × (0xE0 ≤ get_or s.now 0 0) }
    ensures passes { Passes result s.now }
    ensures stops { result ≡ 0 → well_formed s.now ≡ 0 }
{
    let n = characters::of_more(s);
    if n == 3 {
        return 3 + runs::triples(&s[3..]);
    }
    n
}

// Characters of one byte; or one of more, with a run of such behind it; 0 where there is none.
fn step(s: &[u8]) -> usize
    requires { 0 < length s.now }
    ensures passes { Passes result s.now }
    ensures stops { result ≡ 0 → well_formed s.now ≡ 0 }
{
    if s[0] < 0x80 {
        return utf8_ascii::run(s);
    }
    if s[0] < 0xE0 {
        return two_and_run(s);
    }
    more_and_run(s)
}

// How many bytes the longest well-formed beginning of s has.
pub fn well_formed(s: &[u8]) -> usize
    ensures { result ≡ well_formed s.now }
{
    let mut i = 0;
    // A step passes what it finds, so there is no range for a `for` to go over.
    while i < s.len() {
        let n = step(&s[i..]);
        if n == 0 {
            return i;
        }
        i += n;
    }
    i
}

// The byte at place n is there, and zero.
fn zero_at(s: &[u8], n: usize) -> bool
    ensures { result ≡ true → (n < length s.now) × (get_or s.now n 0 ≡ 0) }
{
    s.get(n) == Some(&0)
}

// Text up to the first zero byte, which stands behind n others, whatever characters it has.
fn ended(s: &[u8], n: usize) -> Result<usize, TextError>
    requires { n ≡ until_zero s.now }
    ensures { Ended s.now result }
{
    if s.len() <= n {
        return Err(TextError::Unended);
    }
    let m = well_formed(&s[..n]);
    if m < n {
        return Err(TextError::IllFormed(m));
    }
    Ok(n)
}

// Text up to the first zero byte. Most has characters of one byte alone, and then one search tells both where it ends and that it is UTF-8.
pub fn zero_ended(s: &[u8]) -> Result<usize, TextError>
    ensures { Ended s.now result }
{
    let n = utf8_ascii::until_zero(s);
    if zero_at(s, n) {
        return Ok(n);
    }
    ended(s, until_zero(s))
}

// The same by four bytes at a time, for text that may be long.
pub fn far_ended(s: &[u8]) -> Result<usize, TextError>
    ensures { Ended s.now result }
{
    let n = utf8_ascii::plain_run(s);
    if zero_at(s, n) {
        return Ok(n);
    }
    ended(s, until_far_zero(s))
}
