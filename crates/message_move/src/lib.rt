// Forwarding a message with its body moved behind a given number of its sequences.
#![tactic(auto)]

mod order;

ghost use Rattle.std.specs.Prelude.{◌≡◌, length};
ghost use Rattle.refusal.specs.Told.{told};
ghost use Rattle.opmsg.specs.Inner.{judged};
ghost use Rattle.message.specs.Message.{viewed, output};
ghost use Rattle.message.specs.Move.{move};
ghost use Rattle.message.specs.Inner.{decided};
ghost use Rattle.message_move.specs.Inner.{movable};

use crate::order::{moved_view, reordered};
use message_move_store::moved;
use opmsg::{Edition, View};
use opmsg_read::read;
use opmsg_view::sequence_count;
use refusal::{Reason, Refusal};

// The checks behind reading, for a message with so many sequences and bytes.
#[tactic(auto, using(crate::proofs::Moves::cases))]
fn movable(count: u32, behind: u32, length: u32, room: usize) -> Result<(), Refusal>
    ensures { judged result ≡ movable count behind length room }
{
    if count < behind {
        return Err(Reason::TooFewSequences.at(0));
    }
    if room < length as usize {
        return Err(Reason::ShortOutput.at(0));
    }
    Ok(())
}

// What moving the body answers, with so much room for the message; nothing is written.
pub fn check(e: Edition, s: &[u8], behind: u32, room: usize) -> Result<(), Refusal>
    ensures { judged result ≡ decided (move e s.now behind room) }
{
    let v = read(e, s)?;
    movable(sequence_count(v), behind, v.length, room)
}

// Forwards the message at the start of s with its body behind so many of its sequences, and with the checksum worked out anew.
pub fn move_body(e: Edition, s: &[u8], behind: u32, out: &mut [u8]) -> Result<View, Refusal>
    ensures shows { told result ≡ viewed (move e s.now behind (length out.old)) }
    ensures writes { out.new ≡ output (move e s.now behind (length out.old)) out.old }
{
    let v = read(e, s)?;
    let count = sequence_count(v);
    movable(count, behind, v.length, out.len())?;
    let entries = reordered(v, behind as usize);
    let used = &entries[..count as usize + 1];
    moved(out, s, used, v.flags);
    Ok(moved_view(&v, used))
}
