// The bytes of a message whose sections stand in another order, stored from left to right once all is decided.
#![tactic(auto)]

ghost use Rattle.std.specs.Prelude.{◌++◌, ◌≡◌, ◌+◌, ◌-◌, ◌≤◌, length, take};
ghost use Rattle.opmsg.specs.Layout.{checksum_size};
ghost use Rattle.opmsg.specs.Sections.{place_of, section_size};
ghost use Rattle.message.specs.Message.{message};
ghost use Rattle.message.specs.Move.{section_in};
ghost use Rattle.message_seal.specs.Inner.{overwritten};
ghost use Rattle.message_move_store.specs.Inner.{laid};

use message_seal::seal;
use opmsg::{Entry, Section};
use wire::stretch;
use wire_put::{put, put_word};

// How many bytes a section takes, its kind byte among them.
#[tactic(auto, unfolding(opmsg::specs::Sections::section_size))]
pub fn section_size(section: Section) -> usize
    ensures { result ≡ section_size section }
{
    match section {
        Section::None => 0,
        Section::Body(range) => 1 + range.length as usize,
        Section::Sequence {
            identifier,
            documents,
            ..
        } => identifier.length as usize + 6 + documents.length as usize,
    }
}

// Where its kind byte stands.
#[tactic(auto, unfolding(opmsg::specs::Sections::place_of))]
fn section_place(section: Section) -> usize
    ensures { result ≡ place_of section }
{
    match section {
        Section::None => 0,
        Section::Body(range) => range.start.saturating_sub(1) as usize,
        Section::Sequence { identifier, .. } => identifier.start.saturating_sub(5) as usize,
    }
}

// Its bytes in the message s.
#[tactic(auto, unfolding(message::specs::Move::section_in))]
fn section_in(s: &[u8], section: Section) -> &[u8]
    ensures { result.now ≡ section_in s.now section }
{
    stretch(s, section_place(section), section_size(section))
}

// Stores the sections of s that the entries say, one behind the other from 20 on; answers where they end.
fn sections(out: &mut [u8], s: &[u8], entries: &[Entry]) -> usize
    requires { 20 + length (laid s.now entries.now) ≤ length out.old }
    ensures stores { out.new ≡ overwritten (take 20 out.old ++ laid s.now entries.now) out.old }
    ensures ends { result ≡ 20 + length (laid s.now entries.now) }
{
    let mut at: usize = 20;
    for entry in entries {
        let bytes = section_in(s, entry.section);
        put(out, at, bytes);
        at += bytes.len();
    }
    at
}

// Stores the message at the start of s with another flag word, with the sections that the entries say, and with the checksum anew.
pub fn moved(out: &mut [u8], s: &[u8], entries: &[Entry], flags: u32)
    requires { (16 ≤ length s.now) × (20 + length (laid s.now entries.now) + checksum_size flags ≤ length out.old) }
    ensures { out.new ≡ overwritten (message (take 16 s.now) flags (laid s.now entries.now)) out.old }
{
    put(out, 0, &s[..16]);
    put_word(out, 16, flags);
    let end = sections(out, s, entries);
    seal(out, end, flags);
}
