// The bytes of a message that is forwarded, stored from left to right once all is decided.
#![tactic(auto)]

ghost use Rattle.std.specs.Prelude.{◌≡◌, ◌-◌, ◌≤◌, length, take};
ghost use Rattle.wire.specs.Bytes.{word_at, put};
ghost use Rattle.crc32c_refresh.specs.Refresh.{refreshed};
ghost use Rattle.opmsg.specs.Layout.{flag_word, section_bytes};
ghost use Rattle.message.specs.Message.{checksum, message};
ghost use Rattle.message_seal.specs.Inner.{overwritten};
ghost use Rattle.message_forward_store.specs.Inner.{Shown, Reflagged};

use crc32c_refresh::refresh;
use message_seal::seal;
use opmsg_flags::{checksum_size, checksummed};
use wire::word;
use wire_put::{put, put_word};

// From so many bytes on, five blocks behind the flag word, a checksum is refreshed sooner than worked out.
const MANY: usize = 1_300;

// The checksum that stands in s at `end`, refreshed for another flag word.
fn refreshed(s: &[u8], end: usize, flags: u32) -> u32
    requires { (20 ≤ end) × (end ≤ length s.now) }
    ensures { result ≡ refreshed (word_at end s.now) (flag_word s.now) flags (end - 20) }
{
    refresh(word(&s[end..]), word(&s[16..]), flags, (end - 20) as u64)
}

// Stores the checksum behind the first `end` bytes, which are those of the message at the start of s with another flag word.
fn reseal(out: &mut [u8], s: &[u8], end: usize, flags: u32)
    requires { Reflagged s.now out.old end flags }
    ensures { out.new ≡ put end (checksum flags (take end out.old)) out.old }
{
    if end < MANY {
        seal(out, end, flags);
        return;
    }
    if checksummed(flags) {
        let sum = refreshed(s, end, flags);
        put_word(out, end, sum);
    }
}

// Stores the message at the start of s with another flag word, and the checksum anew.
fn reflagged(out: &mut [u8], s: &[u8], size: usize, flags: u32)
    requires { Shown s.now size flags × (size ≤ length out.old) }
    ensures { out.new ≡ overwritten (message (take 16 s.now) flags (section_bytes s.now)) out.old }
{
    let end = size - checksum_size(flags) as usize;
    put(out, 0, &s[..16]);
    put_word(out, 16, flags);
    put(out, 20, &s[20..end]);
    reseal(out, s, end, flags);
}

// Stores the message at the start of s, which was read, with the flag word that is shown of it.
pub fn forwarded(out: &mut [u8], s: &[u8], size: usize, flags: u32)
    requires { Shown s.now size flags × (size ≤ length out.old) }
    ensures { out.new ≡ overwritten (message (take 16 s.now) flags (section_bytes s.now)) out.old }
{
    if word(&s[16..]) != flags {
        reflagged(out, s, size, flags);
        return;
    }
    // The flag word stays, and so does the checksum, which was checked.
    put(out, 0, &s[..size]);
}
