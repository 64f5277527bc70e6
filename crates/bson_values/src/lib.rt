// The element table: what stands after an element's name.
#![tactic(auto)]

ghost use Rattle.std.specs.Prelude.{◌≡◌, ℕ, ◌+◌, ◌-◌, ◌^◌, ◌<◌, ◌≤◌, length};
ghost use Rattle.bson_values.specs.Value.{sized, boolean, cstring, string, binary, regex, pointer, code_with_scope, bytes, table, rule_in};
ghost use Rattle.bson_values.specs.Inner.{extent, ExtentWithin, shape, ShapeWithin, rule_of, rule_found, counted, Counted, behind, miscounted, Unread};

use utf8_text::{TextError, well_formed, zero_ended};
use wire::{under, word};

// Why something is no value: it breaks its rule; or text in it is UTF-8 up to that byte alone.
#[derive(Clone, Copy, Debug, PartialEq, Eq)]
pub enum ValueError {
    Broken,
    IllFormed(usize),
}

impl From<TextError> for ValueError {
    ghost from_gives = { Unread };

    fn from(error: TextError) -> ValueError {
        match error {
            TextError::Unended => ValueError::Broken,
            TextError::IllFormed(n) => ValueError::IllFormed(n),
        }
    }
}

// A value: bytes alone; a document; or bytes of which those from `start` on are a document.
#[derive(Clone, Copy, Debug, PartialEq, Eq)]
pub enum Shape {
    Plain(usize),
    Embedded,
    Scoped { start: usize, size: usize },
}

// The rows of the table.
#[derive(Clone, Copy, Debug, PartialEq, Eq)]
pub enum Kind {
    Bytes(usize),
    Boolean,
    String,
    Binary,
    Regex,
    Pointer,
    Embedded,
    Code,
}

// The row in which the type t stands, if it has one. Each element asks for it, and a call would cost it a tenth.
#[inline(always)]
#[tactic(auto, unfolding(crate::specs::Value::table, crate::specs::Value::rule_in, wire::specs::Bytes::one_of))]
pub fn kind_of(t: u8) -> Option<Kind>
    ensures { (at : ℕ) → rule_found at result ≡ rule_in table at t }
{
    match t {
        0x01 | 0x09 | 0x11 | 0x12 => Some(Kind::Bytes(8)),
        0x10 => Some(Kind::Bytes(4)),
        0x13 => Some(Kind::Bytes(16)),
        0x07 => Some(Kind::Bytes(12)),
        0x08 => Some(Kind::Boolean),
        0x06 | 0x0A | 0x7F | 0xFF => Some(Kind::Bytes(0)),
        0x02 | 0x0D | 0x0E => Some(Kind::String),
        0x05 => Some(Kind::Binary),
        0x0B => Some(Kind::Regex),
        0x0C => Some(Kind::Pointer),
        0x03 | 0x04 => Some(Kind::Embedded),
        0x0F => Some(Kind::Code),
        _ => None,
    }
}

// n bytes, whatever they are.
fn sized(n: usize, s: &[u8]) -> Result<usize, ValueError>
    ensures is { (v at : ℕ) → extent v at result ≡ sized v n s.now }
    ensures inside { ExtentWithin (length s.now) result }
{
    if s.len() < n {
        return Err(ValueError::Broken);
    }
    Ok(n)
}

// One byte, 0 or 1.
fn boolean(s: &[u8]) -> Result<usize, ValueError>
    ensures is { (v at : ℕ) → extent v at result ≡ boolean v s.now }
    ensures inside { ExtentWithin (length s.now) result }
{
    match s.first() {
        Some(&b) if b <= 1 => Ok(1),
        _ => Err(ValueError::Broken),
    }
}

// A zero-ended string.
fn cstring(s: &[u8]) -> Result<usize, ValueError>
    ensures is { (v at : ℕ) → extent v at result ≡ cstring v at s.now }
    ensures inside { ExtentWithin (length s.now) result }
{
    let n = zero_ended(s)?;
    Ok(n + 1)
}

// The signed length, of at least some number, that s begins with.
fn counted(s: &[u8], least: u32) -> Result<usize, ValueError>
    ensures is { (v at : ℕ) → extent v at result ≡ counted v least s.now }
    ensures inside { Counted least s.now result }
{
    if s.len() < 4 {
        return Err(ValueError::Broken);
    }
    let w = word(s);
    if under(least, w) {
        return Err(ValueError::Broken);
    }
    Ok(w as usize)
}

// A string: a signed length n of at least 1, then n bytes: text, and a zero.
fn string(s: &[u8]) -> Result<usize, ValueError>
    ensures is { (v at : ℕ) → extent v at result ≡ string v at s.now }
    ensures inside { ExtentWithin (length s.now) result }
{
    let n = counted(s, 1)?;
    let last = 3 + n;
    if s.len() <= last || s[last] != 0 {
        return Err(ValueError::Broken);
    }
    let text = well_formed(&s[4..last]);
    if text < n - 1 {
        return Err(ValueError::IllFormed(4 + text));
    }
    Ok(4 + n)
}

// A binary of subtype 2 whose n bytes do not begin with a length that is n - 4.
fn miscounted(s: &[u8], n: usize) -> bool
    requires { 5 ≤ length s.now }
    ensures { result ≡ miscounted n s.now }
{
    s[4] == 2 && (n < 4 || word(&s[5..]) as usize != n - 4)
}

// A binary: a signed length n, a subtype byte, n bytes.
fn binary(s: &[u8]) -> Result<usize, ValueError>
    ensures is { (v at : ℕ) → extent v at result ≡ binary v s.now }
    ensures inside { ExtentWithin (length s.now) result }
{
    let n = counted(s, 0)?;
    if s.len() < 5 + n || miscounted(s, n) {
        return Err(ValueError::Broken);
    }
    Ok(5 + n)
}

// Something with m bytes before it.
fn behind(m: usize, e: Result<usize, ValueError>) -> Result<usize, ValueError>
    requires { ExtentWithin (2 ^ 64 - 1 - m) e }
    ensures is { (v at : ℕ) → extent v at result ≡ behind m (extent v (at + m) e) }
    ensures inside { (n : ℕ) → ExtentWithin n e → ExtentWithin (m + n) result }
{
    // One match moves all: behind `map` and `map_err` the error would need a match of its own.
    match e {
        Ok(n) => Ok(m + n),
        Err(ValueError::Broken) => Err(ValueError::Broken),
        Err(ValueError::IllFormed(n)) => Err(ValueError::IllFormed(m + n)),
    }
}

// Two zero-ended strings.
fn regex(s: &[u8]) -> Result<usize, ValueError>
    ensures is { (v : ℕ) → extent v v result ≡ regex v s.now }
    ensures inside { ExtentWithin (length s.now) result }
{
    let m = cstring(s)?;
    behind(m, cstring(&s[m..]))
}

// A string, then 12 bytes.
fn pointer(s: &[u8]) -> Result<usize, ValueError>
    ensures is { (v : ℕ) → extent v v result ≡ pointer v s.now }
    ensures inside { ExtentWithin (length s.now) result }
{
    let m = string(s)?;
    behind(m, sized(12, &s[m..]))
}

// A signed total of at least 14 counting itself, a string, and from there on a document.
fn code_with_scope(s: &[u8]) -> Result<Shape, ValueError>
    ensures is { (v : ℕ) → shape v result ≡ code_with_scope v s.now }
    ensures inside { ShapeWithin (length s.now) result }
{
    let size = counted(s, 14)?;
    if s.len() < size {
        return Err(ValueError::Broken);
    }
    let start = behind(4, string(&s[4..size]))?;
    Ok(Shape::Scoped { start, size })
}

// A value of some kind, where s is what follows its name, up to the document's last byte.
pub fn value_of(k: Kind, s: &[u8]) -> Result<Shape, ValueError>
    ensures is { (v : ℕ) → shape v result ≡ rule_of k v s.now }
    ensures inside { ShapeWithin (length s.now) result }
{
    match k {
        Kind::Bytes(n) => sized(n, s).map(Shape::Plain),
        Kind::Boolean => boolean(s).map(Shape::Plain),
        Kind::String => string(s).map(Shape::Plain),
        Kind::Binary => binary(s).map(Shape::Plain),
        Kind::Regex => regex(s).map(Shape::Plain),
        Kind::Pointer => pointer(s).map(Shape::Plain),
        Kind::Embedded => Ok(Shape::Embedded),
        Kind::Code => code_with_scope(s),
    }
}
