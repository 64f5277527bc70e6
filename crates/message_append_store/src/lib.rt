// The bytes of a message with one section more, stored once all is decided.
#![tactic(auto)]

ghost use Rattle.std.specs.Prelude.{◌++◌, ◌≡◌, ◌+◌, ◌-◌, ◌^◌, ◌<◌, ◌≤◌, length, take, drop};
ghost use Rattle.wire.specs.Bytes.{put};
ghost use Rattle.opmsg.specs.Layout.{checksum_size};
ghost use Rattle.message.specs.Append.{sequence_bytes, appended};
ghost use Rattle.message_seal.specs.Inner.{overwritten};

use message_seal::seal;
use opmsg_flags::checksum_size;
use wire_put::{put, put_word};

// Stores a section of kind 1 at a place.
fn section(out: &mut [u8], at: usize, identifier: &[u8], documents: &[u8])
    requires { (at + (1 + (length identifier.now + 5 + length documents.now)) ≤ length out.old) × (length identifier.now + 5 + length documents.now < 2 ^ 32) }
    ensures { out.new ≡ put at (sequence_bytes identifier.now documents.now) out.old }
{
    let n = identifier.len();
    out[at] = 1;
    put_word(out, at + 1, (n + 5 + documents.len()) as u32);
    put(out, at + 5, identifier);
    out[at + 5 + n] = 0;
    put(out, at + 6 + n, documents);
}

// Stores the message s, whose sections end at `end`, with a flag word and a new section.
pub fn appended(
    out: &mut [u8],
    s: &[u8],
    end: usize,
    flags: u32,
    identifier: &[u8],
    documents: &[u8],
)
    requires { (20 ≤ end) × (end ≤ length s.now)
        × (end + (length identifier.now + 6 + length documents.now) + checksum_size flags ≤ length out.old)
        × (end + (length identifier.now + 6 + length documents.now) + checksum_size flags < 2 ^ 32) }
    ensures { out.new ≡ overwritten (appended s.now flags (take (end - 20) (drop 20 s.now) ++ sequence_bytes identifier.now documents.now)) out.old }
{
    let stop = end + (identifier.len() + 6 + documents.len());
    put_word(out, 0, stop as u32 + checksum_size(flags));
    put(out, 4, &s[4..16]);
    put_word(out, 16, flags);
    put(out, 20, &s[20..end]);
    section(out, end, identifier, documents);
    seal(out, stop, flags);
}
