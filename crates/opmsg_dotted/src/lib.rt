// Dotted texts: parted at its dots, a text leads from elements into the documents among them, and on to a name.
#![tactic(auto)]

ghost use Rattle.std.specs.Prelude.{true, false, ◌≡◌, ◌+◌, ◌<◌, ◌≤◌, length, take, drop};
ghost use Rattle.opmsg.specs.Names.{same_text};
ghost use Rattle.opmsg.specs.Dotted.{until_dot, elements_within, found};
ghost use Rattle.opmsg.specs.Inner.{Filled};
ghost use Rattle.opmsg_dotted.specs.Inner.{Undotted};
ghost use Rattle.opmsg_element_names.specs.Inner.{Read, text_at};

use opmsg_element_names::{name, next};
use wire::{stretch, word};

const DOT: u8 = 0x2E;

// The type of an element whose value is a document.
const DOCUMENT: u8 = 0x03;

// How many bytes of a text stand before its first dot; all where there is none. Tried by `position`: the bench's nested-latin-3 then took 4,384
// instructions and not 4,256; and `undotted` of a short text by `all`: 4,386.
pub fn until_dot(text: &[u8]) -> usize
    ensures { result ≡ until_dot text.now }
{
    let mut i = 0;
    while i < text.len() && text[i] != DOT {
        i += 1;
    }
    i
}

// None of a block's bytes is a dot. No test hangs on another, so many are made at once.
fn clear(block: &[u8]) -> bool
    ensures { result ≡ true → Undotted (length block.now) block.now }
{
    let mut any = false;
    for b in block {
        any |= *b == DOT;
    }
    !any
}

// None of a text's bytes is, by n at a time: the last n of them may have been among those before. Tried as a `for` over chunks_exact: 44 instructions
// instead of 35 on texts of 9 bytes, of which the bench has many; and as contains: 48.
fn clear_by(text: &[u8], n: usize) -> bool
    requires { (0 < n) × (n ≤ length text.now) }
    ensures { result ≡ true → Undotted (length text.now) text.now }
{
    let mut i = 0;
    while n <= text.len() - i {
        if !clear(&text[i..i + n]) {
            return false;
        }
        i += n;
    }
    clear(&text[text.len() - n..])
}

// A text has no dot: most have none, and this tells it sooner than until_dot, which is to be asked where the answer is no.
#[tactic(auto, using(crate::proofs::FirstName::no_dots))]
pub fn undotted(text: &[u8]) -> bool
    ensures { result ≡ true → until_dot text.now ≡ length text.now }
{
    match text.len() {
        0..=3 => until_dot(text) == text.len(),
        4..=7 => clear_by(text, 4),
        8..=15 => clear_by(text, 8),
        _ => clear_by(text, 16),
    }
}

// A byte of a text goes on with a name's byte: they are the same, and no dot.
fn within_name(x: u8, y: u8) -> bool
    ensures goes_on { result ≡ true → (x ≡ y) × (x ≡ 0x2E → ⊥) }
    ensures ends { result ≡ false → x ≡ y → x ≡ 0x2E }
{
    x == y && x != DOT
}

// A name is the first one of a text. What this costs goes by the name: one long text may be held against thousands of short names. Tried as starts_with
// and contains: 42 instructions instead of 37 where the first bytes differ, as they mostly do; as zip and all: 39.
fn leads(text: &[u8], name: &[u8]) -> bool
    ensures { result ≡ same_text (take (until_dot text.now) text.now) name.now }
{
    let n = name.len();
    if text.len() < n {
        return false;
    }
    for i in 0..n {
        if !within_name(text[i], name[i]) {
            return false;
        }
    }
    n == text.len() || text[n] == DOT
}

// The elements of the document that is the value of the element at a place, which was read and whose name has n bytes.
fn within(xs: &[u8], place: usize, n: usize) -> &[u8]
    requires { Read xs.now place × (n ≡ length (text_at xs.now place)) }
    ensures { result.now ≡ elements_within (drop place xs.now) }
{
    let element = &xs[place..];
    let start = n + 2;
    let document = &element[start..];
    let size = word(document) as usize;
    let inner = size.saturating_sub(5);
    stretch(document, 4, inner)
}

// The last name of a text is found, from the elements xs on: each call is one name and one document deeper. Elements differ in length, so no `for`
// counts them.
pub fn found(xs: &[u8], text: &[u8]) -> bool
    requires { Filled xs.now }
    ensures { result ≡ found xs.now text.now }
{
    let mut i: usize = 0;
    while i < xs.len() {
        let first = name(xs, i);
        let n = first.len();
        if leads(text, first) {
            if n == text.len() {
                return true;
            }
            if xs[i] == DOCUMENT {
                let rest = n + 1;
                if found(within(xs, i, n), &text[rest..]) {
                    return true;
                }
            }
        }
        i = next(xs, i, n);
    }
    false
}
