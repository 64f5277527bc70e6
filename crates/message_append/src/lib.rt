// Appending a document sequence to a message.
#![tactic(auto)]

ghost use Rattle.std.specs.Prelude.{◌≡◌, ◌+◌, ◌^◌, ◌<◌, length};
ghost use Rattle.opmsg.specs.Sections.{sequence_at};
ghost use Rattle.opmsg.specs.View.{sequence_count};
ghost use Rattle.refusal.specs.Told.{told};
ghost use Rattle.opmsg.specs.Inner.{judged};
ghost use Rattle.message.specs.Message.{viewed, output};
ghost use Rattle.message.specs.Append.{append};
ghost use Rattle.message.specs.Inner.{decided};
ghost use Rattle.message_append_checks.specs.Inner.{grown};

use message_append_checks::{Found, examine};
use message_append_store::appended;
use opmsg::{Edition, Entry, Range, Section, View};
use opmsg_read::read;
use refusal::Refusal;

// A sequence whose kind byte is at a place; its identifier has n bytes and its documents d.
fn sequence_at(at: usize, n: usize, d: usize, number: u32) -> Section
    requires { at + (n + 6 + d) < 2 ^ 32 }
    ensures { result ≡ sequence_at at n d number }
{
    let identifier = Range {
        start: (at + 5) as u32,
        length: n as u32,
    };
    let documents = Range {
        start: (at + (n + 6)) as u32,
        length: d as u32,
    };
    Section::Sequence {
        identifier,
        documents,
        number,
    }
}

// The view with one sequence more, behind the sections that its used entries show: its identifier has n bytes and its documents d.
fn grown(v: View, n: usize, d: usize, found: Found) -> View
    requires { (v.length + (n + 6 + d) < 2 ^ 32) × (found.end + (n + 6 + d) < 2 ^ 32) × (found.used < 17) × (found.used ≡ sequence_count v + 1) }
    ensures { result ≡ grown v found.end n d found.documents found.elements }
{
    let mut view = v;
    let section = sequence_at(found.end, n, d, found.documents);
    view.entries[found.used] = Entry { section };
    view.length = v.length + (n + 6 + d) as u32;
    view.elements = found.elements;
    view
}

// What appending to an output with so much room answers; nothing is written.
pub fn check(
    e: Edition,
    s: &[u8],
    identifier: &[u8],
    documents: &[u8],
    room: usize,
) -> Result<(), Refusal>
    ensures { judged result ≡ decided (append e s.now identifier.now documents.now room) }
{
    let v = read(e, s)?;
    examine(e, s, v, identifier, documents, room)?;
    Ok(())
}

// Appends a section with an identifier, without its zero byte, and a run of documents to the message at the start of s.
pub fn append(
    e: Edition,
    s: &[u8],
    identifier: &[u8],
    documents: &[u8],
    out: &mut [u8],
) -> Result<View, Refusal>
    ensures shows { told result ≡ viewed (append e s.now identifier.now documents.now (length out.old)) }
    ensures writes { out.new ≡ output (append e s.now identifier.now documents.now (length out.old)) out.old }
{
    let v = read(e, s)?;
    let found = examine(e, s, v, identifier, documents, out.len())?;
    appended(out, s, found.end, v.flags, identifier, documents);
    Ok(grown(v, identifier.len(), documents.len(), found))
}
