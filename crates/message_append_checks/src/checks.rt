// The checks of an append between reading the message and reading the new documents.
ghost use Rattle.std.specs.Prelude.{◌≡◌, ◌+◌, ◌^◌, ◌<◌, length};
ghost use Rattle.utf8.specs.Text.{text_at};
ghost use Rattle.opmsg.specs.Inner.{judged};
ghost use Rattle.message_append_checks.specs.Inner.{allowed, permitted};

use opmsg::Edition;
use opmsg_header::MAX_LENGTH;
use opmsg_sequences::MAX_SEQUENCES;
use refusal::{Reason, Refusal};
use utf8_text::well_formed;
use wire::until_zero;

// Checks 10, 14, 13, 2 and 25, for a message of `old` bytes and `count` sequences whose sections end at `end`, and documents of d bytes.
#[tactic(auto, using(crate::proofs::Cases::cases))]
fn between_readings(
    e: Edition,
    end: usize,
    count: u32,
    old: u32,
    identifier: &[u8],
    d: usize,
    room: usize,
) -> Result<(), Refusal>
    requires { end + 5 < 2 ^ 64 }
    ensures { judged result ≡ allowed e end count identifier.now (old + (length identifier.now + 6 + d)) room }
{
    if !e.sequences {
        return Err(Reason::UnknownSection.at(end));
    }
    if MAX_SEQUENCES <= count as usize {
        return Err(Reason::TooManySequences.at(end));
    }
    let n = identifier.len();
    if n == 0 || until_zero(identifier) < n {
        return Err(Reason::Identifier.at(end + 5));
    }
    // A sum that saturates is over the limit all the same.
    let whole = (old as usize + 6).saturating_add(n).saturating_add(d);
    if whole > MAX_LENGTH as usize {
        return Err(Reason::MessageLength.at(0));
    }
    if room < whole {
        return Err(Reason::ShortOutput.at(0));
    }
    Ok(())
}

// Check 27: the identifier as text, at its place in the new message.
#[tactic(auto, using(crate::proofs::Cases::cases))]
fn named(identifier: &[u8], place: usize) -> Result<(), Refusal>
    requires { place + length identifier.now < 2 ^ 64 }
    ensures { judged result ≡ text_at place identifier.now }
{
    let n = well_formed(identifier);
    if n < identifier.len() {
        return Err(Reason::NotUtf8.at(place + n));
    }
    Ok(())
}

// All of them.
#[tactic(auto, using(crate::proofs::Cases::cases))]
pub(crate) fn before_documents(
    e: Edition,
    end: usize,
    count: u32,
    old: u32,
    identifier: &[u8],
    d: usize,
    room: usize,
) -> Result<(), Refusal>
    requires { end + 5 < 2 ^ 63 }
    ensures { judged result ≡ permitted e end count identifier.now (old + (length identifier.now + 6 + d)) room }
{
    between_readings(e, end, count, old, identifier, d, room)?;
    named(identifier, end + 5)
}
