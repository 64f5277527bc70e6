// What is shown of an accepted message.
#![tactic(auto)]

ghost use Rattle.std.specs.Prelude.{◌≡◌, ◌+◌, ◌≤◌, length};
ghost use Rattle.wire.specs.Bytes.{word_at, signed};
ghost use Rattle.opmsg.specs.Sections.{Parts, body_of};
ghost use Rattle.opmsg.specs.View.{padded, view_of, sections_of, sequence_count};

use opmsg::{Edition, Entry, Range, Section, View};
use opmsg_flags::kept;
use wire::{signed, word};

// The id at a place of the header.
fn id_at(s: &[u8], at: usize) -> i32
    requires { at + 4 ≤ length s.now }
    ensures { result ≡ signed (word_at at s.now) }
{
    signed(word(&s[at..]))
}

// The view of a message with such sections.
#[inline(always)]
pub fn view(e: Edition, s: &[u8], entries: &[Entry; 17], elements: u32) -> View
    requires { 20 ≤ length s.now }
    ensures { (p : Parts) → padded p.sections ≡ entries.now → p.elements ≡ elements → result ≡ view_of e s.now p }
{
    let length = word(s);
    let request_id = id_at(s, 4);
    let response_to = id_at(s, 8);
    let flags = kept(e.bits, word(&s[16..]));
    View {
        length,
        request_id,
        response_to,
        flags,
        entries: *entries,
        elements,
    }
}

// How many sequences a view shows.
pub fn sequence_count(v: View) -> u32
    ensures { result ≡ sequence_count v }
{
    v.entries
        .iter()
        .filter(|e| matches!(e.section, Section::Sequence { .. }))
        .count() as u32
}

// The body's part of the message; at 0 where a view shows none.
#[tactic(auto, using(crate::proofs::Counting::body))]
pub fn body(v: View) -> Range
    ensures { result ≡ body_of (sections_of v) }
{
    for entry in v.entries.iter() {
        if let Section::Body(range) = entry.section {
            return range;
        }
    }
    Range {
        start: 0,
        length: 0,
    }
}
