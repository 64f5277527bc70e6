// What a write decides before it stores anything. The body is read where it lies.
#![tactic(auto)]

ghost use Rattle.std.specs.Prelude.{◌≡◌};
ghost use Rattle.bson.specs.Document.{told};
ghost use Rattle.message_write_checks.specs.Inner.{Checked, body_examined};

use bson::Walk;
use opmsg::Edition;
use opmsg_body_names::body_names;
use opmsg_flags::{all_known, checksum_size};
use opmsg_header::MAX_LENGTH;
use refusal::{Reason, Refusal};
use wire::word;

// The checks before the body is read: 8, 2, 25 and 15.
#[tactic(auto, using(crate::proofs::Cases::cases))]
pub fn before_reading(e: Edition, flags: u32, body: &[u8], room: usize) -> Result<(), Refusal>
    ensures { Checked e flags body.now room result }
{
    if !all_known(e.bits, flags) {
        return Err(Reason::UnknownFlag.at(16));
    }
    let around = 21 + checksum_size(flags) as usize;
    if MAX_LENGTH as usize - around < body.len() {
        return Err(Reason::MessageLength.at(0));
    }
    if room < around + body.len() {
        return Err(Reason::ShortOutput.at(0));
    }
    if body.len() < 4 || word(body) as usize != body.len() {
        return Err(Reason::DocumentLength.at(21));
    }
    Ok(())
}

// Reads the body at its place in the message, with check 23 of its names.
#[tactic(auto, using(crate::proofs::Examined::cases))]
pub fn examine_body(body: &[u8]) -> Result<Walk, Refusal>
    ensures { told result ≡ body_examined body.now }
{
    let walk = bson::document(body, 21, 0)?;
    let last = walk.size - 1;
    let mut marks: [u64; 32] = [0; 32];
    body_names(&body[4..last], 25, &mut marks)?;
    Ok(walk)
}
