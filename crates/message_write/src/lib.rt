// Writing a message from its ids, flag word and body. Nothing is stored before the answer is known.
#![tactic(auto)]

ghost use Rattle.std.specs.Prelude.{◌≡◌, ◌+◌, ◌^◌, ◌<◌, ℤ, length};
ghost use Rattle.opmsg.specs.Layout.{checksum_size};
ghost use Rattle.refusal.specs.Told.{told};
ghost use Rattle.opmsg.specs.Inner.{judged};
ghost use Rattle.message.specs.Message.{viewed, output};
ghost use Rattle.message.specs.Write.{write};
ghost use Rattle.message.specs.Inner.{decided};
ghost use Rattle.message_write.specs.Inner.{shown};

use message_write_checks::{before_reading, examine_body};
use opmsg::{Edition, Entry, Range, Section, View, no_entries};
use opmsg_flags::checksum_size;
use refusal::Refusal;

// How long the message is.
#[tactic(auto, using(opmsg::proofs::Limits::checksum_small))]
fn whole(flags: u32, size: usize) -> u32
    requires { size < 2 ^ 30 }
    ensures { result ≡ 21 + size + checksum_size flags }
{
    21 + size as u32 + checksum_size(flags)
}

// The view of a message of so many bytes whose one section is a body.
fn view(
    request_id: i32,
    response_to: i32,
    flags: u32,
    length: u32,
    size: u32,
    elements: u32,
) -> View
    ensures { result ≡ shown request_id response_to flags length size elements }
{
    let section = Section::Body(Range {
        start: 21,
        length: size,
    });
    let mut entries = no_entries();
    entries[0] = Entry { section };
    View {
        length,
        request_id,
        response_to,
        flags,
        entries,
        elements,
    }
}

// Writes a message to the start of `out`, which a refusal leaves alone.
pub fn write(
    e: Edition,
    request_id: i32,
    response_to: i32,
    flags: u32,
    body: &[u8],
    out: &mut [u8],
) -> Result<View, Refusal>
    ensures shows { told result ≡ viewed (write e request_id response_to flags body.now (length out.old)) }
    ensures writes { out.new ≡ output (write e request_id response_to flags body.now (length out.old)) out.old }
{
    before_reading(e, flags, body, out.len())?;
    let walk = examine_body(body)?;
    let size = whole(flags, body.len());
    message_write_store::written(request_id, response_to, flags, body, size, out);
    Ok(view(
        request_id,
        response_to,
        flags,
        size,
        body.len() as u32,
        walk.count,
    ))
}

// What writing to an output with so much room answers, whatever the ids; nothing is written.
pub fn check(e: Edition, flags: u32, body: &[u8], room: usize) -> Result<(), Refusal>
    ensures { (request_id response_to : ℤ) → judged result ≡ decided (write e request_id response_to flags body.now room) }
{
    before_reading(e, flags, body, room)?;
    examine_body(body)?;
    Ok(())
}
