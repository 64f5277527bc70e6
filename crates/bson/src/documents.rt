// Documents and elements at all levels.
// A slice and its place are two parameters, as they are of `bson_elements::head` and `document`, whose clauses speak of both.
ghost use Rattle.std.specs.Prelude.{◌≡◌, ◌+◌, ◌^◌, ◌<◌, length};
ghost use Rattle.refusal.specs.Told.{told as told_size};
ghost use Rattle.bson_elements.specs.Element.{element};
ghost use Rattle.bson.specs.Document.{told, frame, document_at};
ghost use Rattle.bson.specs.Inner.{Spans};

use crate::Walk;
use bson_elements::{Outline, head};
use bson_values::Shape;
use refusal::{Reason, Refusal};
use wire::{under, word};

// The length of a document, and that its last byte is zero.
fn frame(s: &[u8], at: usize) -> Result<usize, Refusal>
    requires { at + length s.now < 2 ^ 64 }
    ensures { told_size result ≡ frame at s.now }
{
    if s.len() < 4 {
        return Err(Reason::DocumentLength.at(at));
    }
    let w = word(s);
    let n = w as usize;
    if under(5, w) || s.len() < n {
        return Err(Reason::DocumentLength.at(at));
    }
    let last = n - 1;
    if s[last] != 0 {
        return Err(Reason::DocumentEnd.at(at + last));
    }
    Ok(n)
}

// An element; s ends where the document's elements do. A document in it has so many levels left.
#[cycle(document_at_element)]
fn element(s: &[u8], at: usize, levels: u32, count: u32) -> Result<Walk, Refusal>
    requires { (0 < length s.now) × (at + length s.now < 2 ^ 64) }
    ensures is { told result ≡ element (document_at levels) at s.now count }
    ensures inside { Spans 2 (length s.now) result }
{
    let Outline { start, value } = head(s, at, count)?;
    let count = count + 1;
    match value {
        Shape::Plain(size) => Ok(Walk {
            size: start + size,
            count,
        }),
        Shape::Embedded => {
            let inner = document_at(&s[start..], at + start, levels, count)?;
            Ok(Walk {
                size: start + inner.size,
                count: inner.count,
            })
        }
        Shape::Scoped { start: from, size } => {
            let rest = &s[start..];
            let inner = document_at(&rest[from..size], at + start + from, levels, count)?;
            if from + inner.size != size {
                return Err(Reason::Value.at(at + start));
            }
            Ok(Walk {
                size: start + size,
                count: inner.count,
            })
        }
    }
}

// The document at the start of s, with so many levels left; s ends where what encloses it does.
#[cycle(document_at_element)]
pub(crate) fn document_at(s: &[u8], at: usize, levels: u32, count: u32) -> Result<Walk, Refusal>
    requires { at + length s.now < 2 ^ 64 }
    ensures { told result ≡ document_at levels at s.now count }
{
    if levels == 0 {
        return Err(Reason::TooDeep.at(at));
    }
    let size = frame(s, at)?;
    let last = size - 1;
    let mut i = 4;
    let mut total = count;
    // A turn passes what its element takes, so there is no range for a `for` to go over.
    while i < last {
        let passed = element(&s[i..last], at + i, levels - 1, total)?;
        i += passed.size;
        total = passed.count;
    }
    Ok(Walk { size, count: total })
}
