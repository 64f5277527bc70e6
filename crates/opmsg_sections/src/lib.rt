// Checks 10 to 21: the sections of a message, from left to right. A slice starts at the place `at` of the message, and ends below 2 ^ 31.
// Both are parameters, as they are of `opmsg_sequences::sequence_section`, whose clauses speak of both.
#![tactic(auto)]

ghost use Rattle.std.specs.Prelude.{◌≡◌, ℕ, ◌+◌, ◌^◌, ◌<◌, length};
ghost use Rattle.opmsg.specs.Sections.{Parts, body_section, section_at};
ghost use Rattle.opmsg_sequences.specs.Inner.{part_of, PartWithin, PassedNumbers};
ghost use Rattle.opmsg_sections.specs.Inner.{SectionsTold};

use opmsg::{Content, Edition, Entry, Range, Section, no_entries};
use opmsg_sequences::{Part, sequence_section};
use refusal::{Reason, Refusal};

// Kind 0; xs begins with the kind byte. `start` is that of a body passed before, or 0.
fn body_section(xs: &[u8], at: usize, start: usize, elements: u32) -> Result<Part, Refusal>
    requires { (0 < length xs.now) × (at + length xs.now < 2 ^ 31) }
    ensures is { (p : Parts) (number : ℕ) → PassedNumbers p start number elements → part_of at p result ≡ body_section at xs.now p }
    ensures inside { PartWithin xs.now result }
{
    if 0 < start {
        return Err(Reason::SecondBody.at(at));
    }
    let body = bson::document(&xs[1..], (at + 1) as u32, elements)?;
    Ok(Part::Body {
        size: body.size,
        elements: body.count,
    })
}

// The section at the start of xs.
fn section(
    e: Edition,
    xs: &[u8],
    at: usize,
    start: usize,
    sequences: usize,
    elements: u32,
) -> Result<Part, Refusal>
    requires { (0 < length xs.now) × (at + length xs.now < 2 ^ 31) }
    ensures is { (p : Parts) → PassedNumbers p start sequences elements → part_of at p result ≡ section_at e at xs.now p }
    ensures inside { PartWithin xs.now result }
{
    match xs[0] {
        0 => body_section(xs, at, start, elements),
        1 if e.sequences => sequence_section(xs, at, sequences, elements),
        _ => Err(Reason::UnknownSection.at(at)),
    }
}

// All sections of a message; xs are their bytes, which start at 20. Their entries go into a list that lies with the caller, whatever it says.
pub fn sections(e: Edition, xs: &[u8], entries: &mut [Entry; 17]) -> Result<Content, Refusal>
    requires { length xs.now < 2 ^ 30 }
    ensures { SectionsTold e xs.now entries.new result }
{
    *entries = no_entries();
    let mut i = 0;
    let mut body = 0;
    let mut body_length = 0;
    let mut used = 0;
    let mut sequences = 0;
    let mut elements = 0;
    // A turn passes what its section takes, so there is no range for a `for` to go over.
    while i < xs.len() {
        let at = 20 + i;
        match section(e, &xs[i..], at, body, sequences, elements)? {
            Part::Body {
                size,
                elements: counted,
            } => {
                body = at + 1;
                body_length = size;
                let range = Range {
                    start: body as u32,
                    length: size as u32,
                };
                let section = Section::Body(range);
                entries[used] = Entry { section };
                used += 1;
                elements = counted;
                i += 1 + size;
            }
            Part::Sequenced {
                size,
                elements: counted,
                number,
                identifier,
                documents,
            } => {
                let section = Section::Sequence {
                    identifier,
                    documents,
                    number,
                };
                entries[used] = Entry { section };
                used += 1;
                sequences += 1;
                elements = counted;
                i += size;
            }
        }
    }
    Ok(Content {
        body,
        body_length,
        used,
        sequences,
        elements,
    })
}
