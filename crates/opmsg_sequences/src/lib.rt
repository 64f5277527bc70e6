// Checks 12 to 21: a section that is a document sequence. A slice starts at the place `at` of the message, and ends below 2 ^ 31.
// Both are parameters, as they are of `opmsg_documents::documents`, whose clauses speak of both.
#![tactic(auto)]

ghost use Rattle.std.specs.Prelude.{Err, ◌≡◌, ℕ, ◌+◌, ◌-◌, ◌^◌, ◌<◌, ◌≤◌, length};
ghost use Rattle.wire.specs.Walk.{Step};
ghost use Rattle.refusal.specs.Told.{told};
ghost use Rattle.opmsg.specs.Sections.{Parts, sequence_run, sequence_named, sequence_section};
ghost use Rattle.opmsg_sequences.specs.Inner.{part_of, PartWithin, unnamed, NameWithin, PassedNumbers};

use opmsg::Range;
use opmsg_documents::documents;
use refusal::{Reason, Refusal};
use utf8_text::{TextError, far_ended};
use wire::{under, word};

// The most sequences of a message.
pub const MAX_SEQUENCES: usize = 16;

// What a section adds to those before it: a body of `size` bytes behind the kind byte, or a sequence whose section has `size` bytes;
// and the elements counted by now. What the variants share stands first: at one place in each, it stays in registers.
#[derive(Clone, Copy)]
pub enum Part {
    Body {
        size: usize,
        elements: u32,
    },
    Sequenced {
        size: usize,
        elements: u32,
        number: u32,
        identifier: Range,
        documents: Range,
    },
}

// The documents of a sequence whose identifier has n bytes; the section's size counts from behind the kind byte.
fn sequence_documents(
    xs: &[u8],
    at: usize,
    n: usize,
    size: usize,
    elements: u32,
) -> Result<Part, Refusal>
    requires { (n + 5 ≤ size) × (1 + size ≤ length xs.now) × (at + length xs.now < 2 ^ 31) }
    ensures is { (p : Parts) → p.elements ≡ elements → part_of at p result ≡ sequence_run n size at xs.now p }
    ensures inside { PartWithin xs.now result }
{
    let start = n + 6;
    let end = 1 + size;
    let counted = documents(&xs[start..end], (at + start) as u32, elements)?;
    let identifier = Range {
        start: (at + 5) as u32,
        length: n as u32,
    };
    let documents = Range {
        start: (at + start) as u32,
        length: (end - start) as u32,
    };
    Ok(Part::Sequenced {
        size: end,
        elements: counted.elements,
        number: counted.documents,
        identifier,
        documents,
    })
}

// Why a sequence is refused whose identifier, at that place of the message, is none.
fn misnamed(error: TextError, place: usize) -> Refusal
    requires { NameWithin (2 ^ 64 - 1 - place) error }
    ensures { told {A = Step Parts} (Err result) ≡ unnamed place error }
{
    match error {
        TextError::Unended => Reason::Identifier.at(place),
        TextError::IllFormed(n) => Reason::NotUtf8.at(place + n),
    }
}

// A sequence of a size that fits: its identifier, and the documents behind it.
fn sequence_named(xs: &[u8], at: usize, size: usize, elements: u32) -> Result<Part, Refusal>
    requires { (5 ≤ size) × (1 + size ≤ length xs.now) × (at + length xs.now < 2 ^ 31) }
    ensures is { (p : Parts) → p.elements ≡ elements → part_of at p result ≡ sequence_named size at xs.now p }
    ensures inside { PartWithin xs.now result }
{
    let end = 1 + size;
    let n = far_ended(&xs[5..end]).map_err(|e| misnamed(e, at + 5))?;
    if n == 0 {
        return Err(Reason::Identifier.at(at + 5));
    }
    sequence_documents(xs, at, n, size, elements)
}

// Kind 1; xs begins with the kind byte. `count` sequences were passed before.
pub fn sequence_section(xs: &[u8], at: usize, count: usize, elements: u32) -> Result<Part, Refusal>
    requires { (0 < length xs.now) × (at + length xs.now < 2 ^ 31) }
    ensures is { (p : Parts) (start : ℕ) → PassedNumbers p start count elements → part_of at p result ≡ sequence_section at xs.now p }
    ensures inside { PartWithin xs.now result }
{
    if MAX_SEQUENCES <= count {
        return Err(Reason::TooManySequences.at(at));
    }
    if xs.len() < 5 {
        return Err(Reason::SectionSize.at(at + 1));
    }
    let w = word(&xs[1..]);
    let size = w as usize;
    if under(5, w) || xs.len() < 1 + size {
        return Err(Reason::SectionSize.at(at + 1));
    }
    sequence_named(xs, at, size, elements)
}
