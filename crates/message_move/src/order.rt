// The sections of a message in another order, and the view that shows them so.
ghost use Rattle.std.specs.Prelude.{◌≡◌, ◌+◌, ◌^◌, ◌<◌, ◌≤◌, length};
ghost use Rattle.opmsg.specs.Sections.{max_sequences, section_size};
ghost use Rattle.opmsg.specs.View.{padded, sections_of, sequence_count};
ghost use Rattle.message.specs.Move.{reordered};
ghost use Rattle.message.specs.Moving.{placed};
ghost use Rattle.message_move.specs.Inner.{said, spot, total_size, with_sections};

use message_move_store::section_size;
use opmsg::{Entry, Range, Section, View, no_entries};
use opmsg_view::body;

// The entry of the sequence with so many before it, where the body's is behind a number of them.
#[tactic(auto, unfolding(crate::specs::Inner::spot))]
fn spot(count: usize, behind: usize) -> usize
    requires { count < 17 }
    ensures { result ≡ spot count behind }
{
    if count < behind { count } else { count + 1 }
}

// The sections of a view, the body behind so many sequences.
pub(crate) fn reordered(v: View, behind: usize) -> [Entry; 17]
    requires { (behind ≤ sequence_count v) × (sequence_count v ≤ max_sequences) }
    ensures { result ≡ padded (reordered behind (sections_of v)) }
{
    let mut list = no_entries();
    let mut count: usize = 0;
    for entry in &v.entries {
        if let Section::Sequence { .. } = entry.section {
            list[spot(count, behind)] = *entry;
            count += 1;
        }
    }
    let section = Section::Body(body(v));
    list[behind] = Entry { section };
    list
}

// A section with its kind byte at a place.
#[tactic(auto, unfolding(message::specs::Moving::placed, opmsg::specs::Sections::section_size))]
fn placed(at: usize, section: Section) -> Section
    requires { at + section_size section < 2 ^ 32 }
    ensures { result ≡ placed at section }
{
    match section {
        Section::None => Section::None,
        Section::Body(range) => Section::Body(Range {
            start: (at + 1) as u32,
            length: range.length,
        }),
        Section::Sequence {
            identifier,
            documents,
            number,
        } => Section::Sequence {
            identifier: Range {
                start: (at + 5) as u32,
                length: identifier.length,
            },
            documents: Range {
                start: (at + (identifier.length as usize + 6)) as u32,
                length: documents.length,
            },
            number,
        },
    }
}

// The view with the sections that the entries say, one behind the other.
pub(crate) fn moved_view(v: &View, used: &[Entry]) -> View
    requires { (length used.now ≤ 17) × (20 + total_size (said used.now) < 2 ^ 32) }
    ensures { result ≡ with_sections v.now used.now }
{
    let mut entries = no_entries();
    let mut at: usize = 20;
    for i in 0..used.len() {
        let old = used[i].section;
        entries[i].section = placed(at, old);
        at += section_size(old);
    }
    View { entries, ..*v }
}
