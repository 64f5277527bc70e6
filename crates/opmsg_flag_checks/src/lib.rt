// Checks 7 to 9: the flag word and the checksum.
#![tactic(auto)]

ghost use Rattle.std.specs.Prelude.{◌≡◌, ◌≤◌};
ghost use lib.ListN.{length};
ghost use Rattle.opmsg.specs.Layout.{message_length, checksum_differs, flag_word};
ghost use Rattle.opmsg.specs.Read.{flagged};
ghost use Rattle.opmsg.specs.Inner.{judged};

use opmsg::Edition;
use opmsg_flags::{checksum_size, checksummed, required_known};
use refusal::{Reason, Refusal};
use wire::word;

// There is a checksum, and it is not that of the bytes before it.
#[tactic(auto, unfolding(opmsg::specs::Layout::checksum_differs, wire::specs::Bytes::word_at))]
fn checksum_differs(s: &[u8], length: usize, flags: u32) -> bool
    requires { (4 ≤ length) × (length ≤ lib.ListN.length s.now) }
    ensures { length ≡ message_length s.now → flags ≡ flag_word s.now → result ≡ checksum_differs s.now }
{
    let end = length - 4;
    checksummed(flags) && word(&s[end..]) != crc32c::crc(&s[..end])
}

// The flag word and the checksum of a message whose header was accepted.
#[tactic(auto, using(crate::proofs::Cases::cases))]
pub fn flagged(e: Edition, s: &[u8]) -> Result<(), Refusal>
    requires { message_length s.now ≤ length s.now }
    ensures { judged result ≡ flagged e s.now }
{
    let n = word(s);
    if n < 20 {
        return Err(Reason::NoFlags.at(16));
    }
    let flags = word(&s[16..]);
    if !required_known(e.bits, flags) {
        return Err(Reason::UnknownFlag.at(16));
    }
    if n < 20 + checksum_size(flags) {
        return Err(Reason::NoFlags.at(16));
    }
    let length = n as usize;
    if checksum_differs(s, length, flags) {
        return Err(Reason::Checksum.at(length - 4));
    }
    Ok(())
}
