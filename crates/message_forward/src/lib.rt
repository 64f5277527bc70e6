// Forwarding a message.
#![tactic(auto)]

ghost use Rattle.std.specs.Prelude.{◌≡◌, length};
ghost use Rattle.refusal.specs.Told.{told};
ghost use Rattle.message.specs.Message.{viewed, output};
ghost use Rattle.message.specs.Forward.{forward};

use message_forward_store::forwarded;
use opmsg::{Edition, View};
use opmsg_read::read;
use refusal::{Reason, Refusal};

// Forwards the message at the start of s: its bytes with the flag word that is shown, and the checksum worked out anew.
#[tactic(auto, using(crate::proofs::Cases::cases))]
pub fn forward(e: Edition, s: &[u8], out: &mut [u8]) -> Result<View, Refusal>
    ensures shows { told result ≡ viewed (forward e s.now (length out.old)) }
    ensures writes { out.new ≡ output (forward e s.now (length out.old)) out.old }
{
    let view = read(e, s)?;
    let size = view.length as usize;
    if out.len() < size {
        return Err(Reason::ShortOutput.at(0));
    }
    forwarded(out, s, size, view.flags);
    Ok(view)
}
