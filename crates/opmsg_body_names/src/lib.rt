// Check 23: names of elements that must differ.
#![tactic(auto)]

ghost use Rattle.std.specs.Prelude.{[], true, false, ◌≡◌, ◌+◌, ◌%◌, ◌^◌, ◌<◌, length, take, OnOk, IfOk};
ghost use Rattle.opmsg.specs.Names.{same_text, among, never, distinct, element_names, names_of};
ghost use Rattle.opmsg.specs.Inner.{judged, Filled, Flat};
ghost use Rattle.opmsg_body_names.specs.Inner.{spread, slot_of, marked, marking, Marks, names_told};

use opmsg_element_names::{end_words, name, next};
use opmsg_name_tables::names_differ;
use refusal::{Reason, Refusal};

// The type of an element whose value is a document.
const DOCUMENT: u8 = 0x03;

// How often marks are met in vain before tables are made.
const VAIN: usize = 3;

// How many names to compare with are as dear as one more mark in vain.
const MANY: usize = 64;

// The most bytes of a body whose names are likely to meet no mark.
const LONG: usize = 0x1_0000;

// Two texts are the same.
pub fn same(a: &[u8], b: &[u8]) -> bool
    ensures { result ≡ same_text a.now b.now }
{
    a == b
}

// A slot for a text that begins and ends with two words.
fn spread(first: u32, last: u32) -> usize
    ensures { result ≡ spread first last }
{
    (first as usize + 3 * last as usize) * 0x9E3_779B / 0x40_0000 % 2048
}

// Where the mark of a text stands.
fn slot(text: &[u8]) -> usize
    ensures { result ≡ slot_of text.now }
{
    let e = end_words(text);
    spread(e.first, e.last)
}

// The bit of a slot in its word.
fn bit(slot: usize) -> u64
    ensures { result ≡ 2 ^ (slot % 64) }
{
    1 << (slot % 64)
}

// The mark of a text is made.
pub fn is_marked(marks: &[u64; 32], text: &[u8]) -> bool
    ensures { result ≡ marked marks.now (slot_of text.now) }
{
    let place = slot(text);
    let set = bit(place);
    marks[place / 64] & set == set
}

// Makes the mark of a text, and tells whether it was made before.
pub fn mark(marks: &mut [u64; 32], text: &[u8]) -> bool
    ensures tells { result ≡ marked marks.old (slot_of text.now) }
    ensures makes { marks.new ≡ marking marks.old (slot_of text.now) }
{
    let place = slot(text);
    let set = bit(place);
    let old = marks[place / 64];
    marks[place / 64] = old | set;
    old & set == set
}

// A text is one of the first k names of the elements xs.
pub fn named(xs: &[u8], k: usize, text: &[u8]) -> bool
    requires { Filled xs.now }
    ensures { result ≡ among (take k (names_of xs.now)) text.now }
{
    let mut i: usize = 0;
    let mut left = k;
    // A turn passes what its element takes, so there is no range for a `for` to go over.
    while i < xs.len() {
        if left == 0 {
            return false;
        }
        let other = name(xs, i);
        if same(text, other) {
            return true;
        }
        i = next(xs, i, other.len());
        left -= 1;
    }
    false
}

// Makes the marks of all names of the elements xs, and tells how many there are.
fn mark_all(xs: &[u8], marks: &mut [u64; 32]) -> usize
    requires { Filled xs.now }
    ensures { Marks (names_of xs.now) marks.new }
{
    let mut number: usize = 0;
    let mut i: usize = 0;
    // A turn passes what its element takes, so there is no range for a `for` to go over.
    while i < xs.len() {
        let text = name(xs, i);
        mark(marks, text);
        number += 1;
        i = next(xs, i, text.len());
    }
    number
}

// Check 23 by tables.
fn by_tables(xs: &[u8], at: usize, marks: &mut [u64; 32]) -> Result<(), Refusal>
    requires { Filled xs.now × (at + length xs.now < 2 ^ 64) × (length xs.now < 2 ^ 32) }
    ensures is { judged result ≡ distinct 23 never [] (element_names (length xs.now) at xs.now) }
    ensures marked { OnOk result (Marks (names_of xs.now) marks.new) }
{
    let number = mark_all(xs, marks);
    names_differ(xs, at, number)
}

// A number is past a bound, and tables, whose places are 32-bit numbers, serve so many bytes.
fn past(n: usize, bound: usize, size: usize) -> bool
    ensures { result ≡ true → size < 2 ^ 32 }
{
    size < 0x1_0000_0000 && bound < n
}

// What was met in vain, with one more that was compared with k names: many of them count more.
fn one_more(vain: usize, k: usize) -> usize {
    if vain <= VAIN {
        vain + 1 + k / MANY
    } else {
        vain
    }
}

// Check 23 of a body's elements xs, the first at a place, where marks are met. A name whose mark is met is compared with those
// before it; where that happens too often in vain, tables decide.
fn compared(xs: &[u8], at: usize, marks: &mut [u64; 32]) -> Result<(), Refusal>
    requires { Filled xs.now × (at + length xs.now < 2 ^ 64) }
    ensures is { judged result ≡ distinct 23 never [] (element_names (length xs.now) at xs.now) }
    ensures marked { OnOk result (Marks (names_of xs.now) marks.new) }
{
    *marks = [0; 32];
    let mut vain: usize = 0;
    let mut k: usize = 0;
    let mut i: usize = 0;
    // A turn passes what its element takes, so there is no range for a `for` to go over.
    while i < xs.len() {
        let text = name(xs, i);
        if mark(marks, text) {
            if past(vain, VAIN, xs.len()) {
                return by_tables(xs, at, marks);
            }
            if named(xs, k, text) {
                return Err(Reason::RepeatedName.at(at + i + 1));
            }
            vain = one_more(vain, k);
        }
        k += 1;
        i = next(xs, i, text.len());
    }
    Ok(())
}

// Check 23 of a body's elements xs, the first at a place, and whether documents are among them, or perhaps are. Their names get marks:
// where none is met, the names differ. `document` is the place of the last document among them, or the end where there is none: it costs
// less to keep than a truth value.
pub fn body_names(xs: &[u8], at: usize, marks: &mut [u64; 32]) -> Result<bool, Refusal>
    requires { Filled xs.now × (at + length xs.now < 2 ^ 64) }
    ensures is { names_told result ≡ distinct 23 never [] (element_names (length xs.now) at xs.now) }
    ensures marked { OnOk result (Marks (names_of xs.now) marks.new) }
    ensures flat { IfOk result (λ nested. nested ≡ false → Flat xs.now) }
{
    if LONG < xs.len() {
        compared(xs, at, marks)?;
        return Ok(true);
    }
    let mut document = xs.len();
    let mut i: usize = 0;
    // A turn passes what its element takes, so there is no range for a `for` to go over.
    while i < xs.len() {
        let text = name(xs, i);
        if mark(marks, text) {
            compared(xs, at, marks)?;
            return Ok(true);
        }
        if xs[i] == DOCUMENT {
            document = i;
        }
        i = next(xs, i, text.len());
    }
    Ok(document < xs.len())
}
