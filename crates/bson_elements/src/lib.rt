// Elements, but for the documents in them.
#![tactic(auto)]

ghost use Rattle.std.specs.Prelude.{Err, ◌≡◌, ℕ, ◌+◌, ◌-◌, ◌^◌, ◌<◌, ◌≤◌, length};
ghost use Rattle.refusal.specs.Told.{told};
ghost use Rattle.bson_values.specs.Inner.{fault, FaultWithin};
ghost use Rattle.bson_elements.specs.Element.{Head, head};
ghost use Rattle.bson_elements.specs.Inner.{outline, OutlineWithin, unnamed, Placed};

use bson_values::{Shape, ValueError, kind_of, value_of};
use refusal::{Reason, Refusal};
use utf8_text::{TextError, zero_ended};

// The most elements of a message.
pub const MAX_ELEMENTS: u32 = 262_144;

// An element but for the documents in it: where its value starts, and what that is.
#[derive(Clone, Copy, Debug, PartialEq, Eq)]
pub struct Outline {
    pub start: usize,
    pub value: Shape,
}

// Why an element is refused whose value, at that place of the message, is none.
fn no_value(error: ValueError, place: usize) -> Refusal
    requires { FaultWithin (2 ^ 64 - 1 - place) error }
    ensures { told {A = Head} (Err result) ≡ fault place place error }
{
    match error {
        ValueError::Broken => Reason::Value.at(place),
        ValueError::IllFormed(n) => Reason::NotUtf8.at(place + n),
    }
}

// Why an element at that place is refused whose name is none: for its type, where that stands in no row.
fn unnamed(t: u8, at: usize, error: TextError) -> Refusal
    requires { Placed at error }
    ensures { told (Err result) ≡ unnamed t at error }
{
    if kind_of(t).is_none() {
        return Reason::UnknownType.at(at);
    }
    match error {
        TextError::Unended => Reason::NameEnd.at(at + 1),
        TextError::IllFormed(n) => Reason::NotUtf8.at(at + 1 + n),
    }
}

// The type and the name of an element, and its value but for a document in it. The name's end is searched for first, so that the type of
// an element with a name is looked up once.
pub fn head(s: &[u8], at: usize, count: u32) -> Result<Outline, Refusal>
    requires { (0 < length s.now) × (at + length s.now < 2 ^ 64) }
    ensures is { outline result ≡ head at s.now count }
    ensures inside { OutlineWithin (length s.now) result }
{
    if count >= MAX_ELEMENTS {
        return Err(Reason::TooManyElements.at(at));
    }
    let t = s[0];
    let n = zero_ended(&s[1..]).map_err(|e| unnamed(t, at, e))?;
    let Some(kind) = kind_of(t) else {
        return Err(Reason::UnknownType.at(at));
    };
    let start = n + 2;
    let value = value_of(kind, &s[start..]).map_err(|e| no_value(e, at + start))?;
    Ok(Outline { start, value })
}
