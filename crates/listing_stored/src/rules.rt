// The kinds of lines, and what each has to be at its place.
ghost use Rattle.std.specs.Prelude.{true, false, ◌≡◌, ◌+◌, ◌^◌, ◌<◌, Some};
ghost use Rattle.listing_fields.specs.Numbers.{fields_of};
ghost use Rattle.listing_stored.specs.Stored.{after_message, message, big, bad, end};
ghost use Rattle.listing_stored.specs.Inner.{limited, position_of, lined, Follows, judged_entry, judged};

use crate::{Limits, Place};
use listing_fields::digits::{between, is_signed, number};
use listing_fields::split::{count, field};

// The smallest length of a `msg`, and the smallest and the largest of a `big`.
const LEAST_MESSAGE: u64 = 26;

const LEAST_BIG: u64 = 65_537;

const MOST_BIG: u64 = 48_000_000;

// The place behind a message of so many bytes.
fn past_message(p: Place, size: u64) -> Place
    requires { (p.line + 1 < 2 ^ 64) × (p.messages + 1 < 2 ^ 64) × (p.far ≡ false) }
    ensures size_value { position_of result ≡ after_message (position_of p) size }
    ensures follows { Follows p (Some result) }
{
    let (offset, far) = p.offset.overflowing_add(size);
    Place {
        line: p.line + 1,
        offset,
        far,
        messages: p.messages + 1,
        ..p
    }
}

// Reads a `msg` line, whose fields are offset, length, requestID, responseTo, shown flags, sequences, elements.
fn message(v: Limits, p: Place, l: &[u8]) -> Option<Place>
    requires { (p.line + 1 < 2 ^ 64) × (p.messages + 1 < 2 ^ 64) × (p.far ≡ false) }
    ensures l_value { message (limited v) (position_of p) (fields_of l.now) ≡ lined p.line result }
    ensures follows { Follows p result }
{
    if count(l) != 8 {
        return None;
    }
    between(p.offset, p.offset, field(l, 1))?;
    let size = between(LEAST_MESSAGE, v.longest, field(l, 2))?;
    if !is_signed(field(l, 3)) {
        return None;
    }
    if !is_signed(field(l, 4)) {
        return None;
    }
    number(field(l, 5))?;
    between(0, v.sequences, field(l, 6))?;
    between(0, v.elements, field(l, 7))?;
    Some(past_message(p, size))
}

// Reads a `big` line, whose fields are offset and length.
fn big(v: Limits, p: Place, l: &[u8]) -> Option<Place>
    requires { (p.line + 1 < 2 ^ 64) × (p.messages + 1 < 2 ^ 64) × (p.far ≡ false) }
    ensures l_value { big (limited v) (position_of p) (fields_of l.now) ≡ lined p.line result }
    ensures follows { Follows p result }
{
    if !v.big {
        return None;
    }
    if count(l) != 3 {
        return None;
    }
    between(p.offset, p.offset, field(l, 1))?;
    let size = between(LEAST_BIG, MOST_BIG, field(l, 2))?;
    Some(past_message(p, size))
}

// Reads a `bad` line, whose fields are offset, number and place.
fn bad(v: Limits, p: Place, l: &[u8]) -> Option<Place>
    requires { (p.line + 1 < 2 ^ 64) × (p.far ≡ false) }
    ensures l_value { bad (limited v) (position_of p) (fields_of l.now) ≡ lined p.line result }
    ensures follows { Follows p result }
{
    if count(l) != 4 {
        return None;
    }
    between(p.offset, p.offset, field(l, 1))?;
    number(field(l, 2))?;
    number(field(l, 3))?;
    Some(Place {
        line: p.line + 1,
        bad: true,
        ..p
    })
}

// Reads an `end` line, whose field is the number of messages.
fn end(v: Limits, p: Place, l: &[u8]) -> Option<Place>
    requires { p.line + 1 < 2 ^ 64 }
    ensures l_value { end (limited v) (position_of p) (fields_of l.now) ≡ lined p.line result }
    ensures follows { Follows p result }
{
    if count(l) != 2 {
        return None;
    }
    between(p.messages, p.messages, field(l, 1))?;
    Some(Place {
        line: p.line + 1,
        ended: true,
        ..p
    })
}

// Reads a line that is no `end`, where others may stand.
fn entry(v: Limits, p: Place, l: &[u8]) -> Option<Place>
    requires { (p.line + 1 < 2 ^ 64) × (p.messages + 1 < 2 ^ 64) × (p.far ≡ false) }
    ensures l_value { judged_entry (limited v) (position_of p) l.now ≡ lined p.line result }
    ensures follows { Follows p result }
{
    let word = field(l, 0);
    if word == b"msg".as_slice() {
        return message(v, p, l);
    }
    if word == b"big".as_slice() {
        return big(v, p, l);
    }
    if word == b"bad".as_slice() {
        return bad(v, p, l);
    }
    None
}

// Reads a line l without its newline: nothing follows `end`, and only `end` follows `bad`.
pub fn line(v: Limits, p: Place, l: &[u8]) -> Option<Place>
    requires { (p.line + 1 < 2 ^ 64) × (p.messages + 1 < 2 ^ 64) }
    ensures l_value { judged (limited v) (position_of p) l.now ≡ lined p.line result }
    ensures follows { Follows p result }
{
    if p.ended {
        return None;
    }
    if field(l, 0) == b"end".as_slice() {
        return end(v, p, l);
    }
    if p.bad {
        return None;
    }
    if p.far {
        return None;
    }
    entry(v, p, l)
}
