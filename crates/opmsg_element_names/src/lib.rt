// The names of elements that were read: where they stand, where the next element starts, and which of two texts comes first.
#![tactic(auto)]

ghost use Rattle.std.specs.Prelude.{◌≡◌, ℕ, ◌+◌, ◌<◌, ◌≤◌, length, get_or, take, drop};
ghost use Rattle.wire.specs.Bytes.{word, until_zero};
ghost use Rattle.bson_elements.specs.Element.{element_size};
ghost use Rattle.opmsg_element_names.specs.Inner.{Read, WithoutZero, text_at, last_word, Ordered};

use bson_skip::element_size;
use std::cmp::Ordering;
use wire::{until_zero, word};

// The words at the ends of a text.
#[derive(Drop)]
pub struct Words {
    pub first: u32,
    pub last: u32,
}

// The name of the element at a place.
pub fn name(xs: &[u8], place: usize) -> &[u8]
    requires { place < length xs.now }
    ensures { result.now ≡ text_at xs.now place }
{
    let start = place + 1;
    let rest = &xs[start..];
    let n = until_zero(rest);
    &rest[..n]
}

// Where the element at a place ends, which was read and whose name has n bytes.
pub fn next(xs: &[u8], place: usize, n: usize) -> usize
    requires { Read xs.now place × (n ≡ length (text_at xs.now place)) }
    ensures is { result ≡ place + element_size (drop place xs.now) }
    ensures inside { (place < result) × (result ≤ length xs.now) }
{
    place + element_size(&xs[place..], n)
}

// The numbers that a text's first four bytes hold and its last four, or all of them where there are fewer.
pub fn end_words(text: &[u8]) -> Words
    ensures { (result.first ≡ word text.now) × (result.last ≡ last_word text.now) }
{
    // Tested before a word is read, which then needs no test of its own: some 20 instructions less for each name.
    if text.len() < 4 {
        let all = word(text);
        return Words {
            first: all,
            last: all,
        };
    }
    Words {
        first: word(text),
        last: word(&text[text.len() - 4..]),
    }
}

// How many bytes two runs have in common at their start, or some fewer: by four at a time.
fn common(a: &[u8], b: &[u8]) -> usize
    ensures within { (result ≤ length a.now) × (result ≤ length b.now) }
    ensures same { (k : ℕ) → k < result → get_or a.now k 0 ≡ get_or b.now k 0 }
{
    let words = a.len().min(b.len()) / 4;
    // Parts of four bytes, whose words need no tests: a read of 4,000 names took twice the instructions with `&a[i..]`.
    for k in 0..words {
        let i = 4 * k;
        if word(&a[i..i + 4]) != word(&b[i..i + 4]) {
            return i;
        }
    }
    4 * words
}

// Which comes first, a text or the name that the bytes begin with: that with the lower byte where they first differ.
#[tactic(auto, using(crate::proofs::Ordering::text_ended))]
fn compare(text: &[u8], bytes: &[u8]) -> Ordering
    requires { WithoutZero text.now }
    ensures { Ordered text.now (take (until_zero bytes.now) bytes.now) result }
{
    let n = text.len();
    for i in common(text, bytes)..n {
        if bytes.len() <= i || bytes[i] < text[i] {
            return Ordering::Greater;
        }
        if text[i] < bytes[i] {
            return Ordering::Less;
        }
    }
    if bytes.len() <= n {
        return Ordering::Equal;
    }
    if 0 < bytes[n] {
        return Ordering::Less;
    }
    Ordering::Equal
}

// A text beside the name of the element at a place.
pub fn against(xs: &[u8], place: usize, text: &[u8]) -> Ordering
    requires { (place < length xs.now) × WithoutZero text.now }
    ensures { Ordered text.now (text_at xs.now place) result }
{
    let start = place + 1;
    compare(text, &xs[start..])
}
