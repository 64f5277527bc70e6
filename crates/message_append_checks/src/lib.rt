// What an append decides before it writes.
#![tactic(auto)]

mod checks;

ghost use Rattle.std.specs.Prelude.{◌≡◌, List, ℕ, ◌+◌, ◌-◌, ◌≤◌, length, take, drop};
ghost use Rattle.opmsg.specs.declared.Section.{Section};
ghost use Rattle.opmsg.specs.Names.{part};
ghost use Rattle.opmsg.specs.Inner.{clashes, Shows, Filled};
ghost use Rattle.wire.specs.Outcome.{ok};
ghost use Rattle.opmsg.specs.Read.{read};
ghost use Rattle.message_append_checks.specs.Inner.{shown_body, Examined};

use checks::before_documents;
use opmsg::{Edition, View};
use opmsg_flags::checksum_size;
use opmsg_identifiers::taken;
use opmsg_view::{body, sequence_count};
use refusal::{Reason, Refusal};

// What an append finds of its parts: where the message's sections end, how many entries show them, and the documents counted with all elements.
#[derive(Clone, Copy)]
pub struct Found {
    pub end: usize,
    pub used: usize,
    pub documents: u32,
    pub elements: u32,
}

// The identifier clashes with a name of the message, whose sections end at a place and are shown by so many entries.
fn repeated(s: &[u8], v: View, end: usize, used: usize, identifier: &[u8]) -> bool
    requires { (20 ≤ end) × (end ≤ length s.now) × (used ≤ 17)
        × Filled (part (take (end - 20) (drop 20 s.now)) ((shown_body v).start + 4) ((shown_body v).length - 5)) }
    ensures { (qs : List Section) (sequences : ℕ) → Shows qs (shown_body v).start (shown_body v).length v.entries used sequences
        → result ≡ clashes (take (end - 20) (drop 20 s.now)) qs identifier.now }
{
    let xs = &s[20..end];
    let range = body(v);
    let entries = v.entries;
    taken(
        xs,
        range.start as usize,
        range.length as usize,
        entries,
        used,
        identifier,
    )
}

// Everything that an append to a message with that view decides before it writes.
pub fn examine(
    e: Edition,
    s: &[u8],
    v: View,
    identifier: &[u8],
    documents: &[u8],
    room: usize,
) -> Result<Found, Refusal>
    requires { read e s.now ≡ ok v }
    ensures { Examined e s.now v identifier.now documents.now room result }
{
    let end = (v.length - checksum_size(v.flags)) as usize;
    let count = sequence_count(v);
    before_documents(e, end, count, v.length, identifier, documents.len(), room)?;
    let at = end + (identifier.len() + 6);
    let counted = opmsg_documents::documents(documents, at as u32, v.elements)?;
    // one entry more is the body's
    let used = count as usize + 1;
    if repeated(s, v, end, used, identifier) {
        return Err(Reason::RepeatedIdentifier.at(end + 5));
    }
    Ok(Found {
        end,
        used,
        documents: counted.documents,
        elements: counted.elements,
    })
}
