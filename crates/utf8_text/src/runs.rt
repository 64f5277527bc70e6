// Runs of characters of two bytes, with some of one byte among them, and of three.
ghost use Rattle.std.specs.Prelude.{◌≡◌, true, false, ◌<◌, ◌≤◌, length, get_or};
ghost use Rattle.utf8_text.specs.Inner.{Passes, Tail, Other, Follows, Joined};

use crate::characters::{of_three, two};

// A character of one byte alone, as the space between words is, before one of more; else 0.
fn lone(s: &[u8]) -> usize
    requires { (2 ≤ length s.now) × (get_or s.now 0 0 < 0x80) }
    ensures { Passes result s.now }
{
    if s[1] < 0x80 { 0 } else { 1 }
}

// A character of two bytes, or a lone one of one byte; 0 where s begins with neither.
fn pair(s: &[u8]) -> usize
    requires { 2 ≤ length s.now }
    ensures { Passes result s.now }
{
    match s[0] {
        0..=0x7F => lone(s),
        0xC2..=0xDF => two(s),
        _ => 0,
    }
}

// A character of three bytes; 0 where s begins with none.
fn triple(s: &[u8]) -> usize
    requires { 0 < length s.now }
    ensures { Passes result s.now }
{
    match s[0] {
        0xE0..=0xEF => of_three(s),
        _ => 0,
    }
}

// `pairs`, `triples` and `blocks` stay three, and the steps of lib.rt are tests in a row: with one generic run over a step, and those by `match`, the
// bench's long-mixed took 192,113 instructions and not 184,028. Steps differ in length, so no `for` counts them.

// A run of characters of two bytes that begin before `end`, with lone ones of one byte among them.
fn pairs(s: &[u8], end: usize) -> usize
    requires { end < length s.now }
    ensures { Passes result s.now }
{
    let mut i = 0;
    while i < end {
        let n = pair(&s[i..]);
        if n == 0 {
            return i;
        }
        i += n;
    }
    i
}

// A run of characters of three bytes.
pub(crate) fn triples(s: &[u8]) -> usize
    ensures { Passes result s.now }
{
    let mut i = 0;
    while 3 <= s.len() - i {
        let n = triple(&s[i..]);
        if n == 0 {
            return i;
        }
        i += n;
    }
    i
}

// A byte that only stands behind another one of its character.
fn tail(x: u8) -> bool
    ensures is { result ≡ true → Tail x }
    ensures another { result ≡ false → Other x }
{
    0x80 <= x && x <= 0xBF
}

// y may not stand behind x in a text of characters of one byte and of two.
fn astray(x: u8, y: u8) -> bool
    ensures { result ≡ false → Follows x y }
{
    if tail(y) {
        x < 0xC2 || 0xDF < x
    } else {
        0xBF < x
    }
}

// Each of the first thirty-two bytes has behind it what may stand there. No test hangs on another, so many are made at once, and nothing
// has to be foreseen.
fn joined(s: &[u8]) -> bool
    requires { 33 ≤ length s.now }
    ensures { result ≡ true → Joined 32 s.now }
{
    let mut any = false;
    for k in 0..32 {
        any |= astray(s[k], s[k + 1]);
    }
    !any
}

// Thirty-two bytes of characters of one byte and of two, and the last one's second byte; else 0.
fn block(s: &[u8]) -> usize
    requires { 33 ≤ length s.now }
    ensures { Passes result s.now }
{
    if tail(s[0]) || !joined(s) {
        return 0;
    }
    if tail(s[32]) { 33 } else { 32 }
}

// A run of such characters by blocks.
fn blocks(s: &[u8]) -> usize
    ensures { Passes result s.now }
{
    let mut i = 0;
    while 33 <= s.len() - i {
        let n = block(&s[i..]);
        if n == 0 {
            return i;
        }
        i += n;
    }
    i
}

// A run of them, by blocks where it begins with more than a few of two bytes: most runs are short.
pub(crate) fn narrow(s: &[u8]) -> usize
    ensures { Passes result s.now }
{
    if s.len() < 2 {
        return 0;
    }
    if s.len() < 64 {
        return pairs(s, s.len() - 1);
    }
    let i = pairs(s, 16);
    if i < 16 {
        return i;
    }
    i + blocks(&s[i..])
}
