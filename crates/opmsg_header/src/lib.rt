// Checks 1 to 6: the header.
#![tactic(auto)]

ghost use Rattle.std.specs.Prelude.{◌≡◌};
ghost use Rattle.opmsg.specs.Read.{header};
ghost use Rattle.opmsg.specs.Inner.{judged};

use refusal::{Reason, Refusal};
use wire::word;

// The most bytes of a message.
pub const MAX_LENGTH: u32 = 48_000_000;

// The header of the message at the start of s.
#[tactic(auto, using(crate::proofs::Cases::cases))]
pub fn header(s: &[u8]) -> Result<(), Refusal>
    ensures { judged result ≡ header s.now }
{
    if s.len() < 16 {
        return Err(Reason::ShortHeader.at(0));
    }
    let n = word(s);
    if n < 16 || MAX_LENGTH < n {
        return Err(Reason::MessageLength.at(0));
    }
    if s.len() < n as usize {
        return Err(Reason::ShortMessage.at(0));
    }
    match word(&s[12..]) {
        2013 => Ok(()),
        2012 => Err(Reason::CompressedOpcode.at(12)),
        1 | 2001 | 2002 | 2004..=2007 => Err(Reason::OlderOpcode.at(12)),
        _ => Err(Reason::UnknownOpcode.at(12)),
    }
}
