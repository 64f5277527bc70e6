// OP_MSG messages: what a message shows, by the edition of the relay that reads it.
#![tactic(auto)]

ghost use Rattle.std.specs.Prelude.{◌≡◌};
ghost use Rattle.refusal.specs.Told.{told};
ghost use Rattle.opmsg.specs.Read.{read};

use opmsg::{Edition, View, no_entries};
use opmsg_flag_checks::flagged;
use opmsg_flags::checksum_size;
use opmsg_header::header;
use opmsg_names::distinct_names;
use opmsg_sections::sections;
use opmsg_view::view;
use refusal::Refusal;
use wire::word;

// Reads the message at the start of s. The list of entries is dear to copy: it is filled where it lies, and goes to the view by one way alone.
pub fn read(e: Edition, s: &[u8]) -> Result<View, Refusal>
    ensures { told result ≡ read e s.now }
{
    header(s)?;
    flagged(e, s)?;
    let length = word(s) as usize;
    let end = length - checksum_size(s[16] as u32) as usize;
    let xs = &s[20..end];
    let mut entries = no_entries();
    let c = sections(e, xs, &mut entries)?;
    distinct_names(end, xs, &c, &entries)?;
    Ok(view(e, s, &entries, c.elements))
}
