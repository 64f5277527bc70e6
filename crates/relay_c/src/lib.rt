// The calls of the library for C and Rust: numbers and slices only. host/relay.h is their manual.
#![tactic(auto)]

ghost use Rattle.std.specs.Prelude.{◌≡◌, length};
ghost use Rattle.opmsg.specs.Read.{read};
ghost use Rattle.message.specs.Message.{viewed, output};
ghost use Rattle.message.specs.Forward.{forward};
ghost use Rattle.message.specs.Write.{write};
ghost use Rattle.message.specs.Append.{append};
ghost use Rattle.message.specs.Move.{move};
ghost use Rattle.listing_stored.specs.Stored.{read_listing};
ghost use Rattle.relay_c_results.specs.Interface.{edition_of, with_room, result_of, numbers};
ghost use Rattle.relay_c_listing.specs.Interface.{with_answer, listing_numbers};

use message_forward_store::forwarded;
use refusal::Reason;
use relay_c_results::numbers::show;
use relay_c_results::{NUMBERS, answered, edition, refusal, without_view};

#[unsafe(no_mangle)]
pub extern "C" fn relay_read(bits: u32, sequences: u8, message: &[u8], view: &mut [i64]) -> u64
    ensures answers { result ≡ result_of (with_room (length view.old) (read (edition_of bits sequences) message.now)) }
    ensures shows { view.new ≡ numbers (with_room (length view.old) (read (edition_of bits sequences) message.now)) view.old }
{
    answered(opmsg_read::read(edition(bits, sequences), message), view)
}

#[unsafe(no_mangle)]
pub extern "C" fn relay_forward(
    bits: u32,
    sequences: u8,
    message: &[u8],
    out: &mut [u8],
    view: &mut [i64],
) -> u64
    ensures answers { result ≡ result_of (with_room (length view.old) (forward (edition_of bits sequences) message.now (length out.old))) }
    ensures writes { out.new ≡ output (with_room (length view.old) (forward (edition_of bits sequences) message.now (length out.old))) out.old }
    ensures shows { view.new ≡ numbers (viewed (with_room (length view.old) (forward (edition_of bits sequences) message.now (length out.old)))) view.old }
{
    match &opmsg_read::read(edition(bits, sequences), message) {
        Ok(v) => {
            let size = v.length as usize;
            if out.len() < size {
                return refusal(u32::from(Reason::ShortOutput), 0);
            }
            if view.len() < NUMBERS {
                return refusal(u32::from(Reason::ShortOutput), 0);
            }
            forwarded(out, message, size, v.flags);
            show(v, view);
            0
        }
        Err(r) => refusal(u32::from(r.reason), r.place),
    }
}

#[unsafe(no_mangle)]
pub extern "C" fn relay_write(
    bits: u32,
    sequences: u8,
    request_id: i32,
    response_to: i32,
    flags: u32,
    body: &[u8],
    out: &mut [u8],
    view: &mut [i64],
) -> u64
    ensures answers { result ≡ result_of (with_room (length view.old) (write (edition_of bits sequences) request_id response_to flags body.now (length out.old))) }
    ensures writes { out.new ≡ output (with_room (length view.old) (write (edition_of bits sequences) request_id response_to flags body.now (length out.old))) out.old }
    ensures shows { view.new ≡ numbers (viewed (with_room (length view.old) (write (edition_of bits sequences) request_id response_to flags body.now (length out.old)))) view.old }
{
    let e = edition(bits, sequences);
    if view.len() < NUMBERS {
        return without_view(message_write::check(e, flags, body, out.len()));
    }
    answered(
        message_write::write(e, request_id, response_to, flags, body, out),
        view,
    )
}

#[unsafe(no_mangle)]
pub extern "C" fn relay_append(
    bits: u32,
    sequences: u8,
    message: &[u8],
    identifier: &[u8],
    documents: &[u8],
    out: &mut [u8],
    view: &mut [i64],
) -> u64
    ensures answers { result ≡ result_of (with_room (length view.old) (append (edition_of bits sequences) message.now identifier.now documents.now (length out.old))) }
    ensures writes { out.new ≡ output (with_room (length view.old) (append (edition_of bits sequences) message.now identifier.now documents.now (length out.old))) out.old }
    ensures shows { view.new ≡ numbers (viewed (with_room (length view.old) (append (edition_of bits sequences) message.now identifier.now documents.now (length out.old)))) view.old }
{
    let e = edition(bits, sequences);
    if view.len() < NUMBERS {
        return without_view(message_append::check(e, message, identifier, documents, out.len()));
    }
    answered(
        message_append::append(e, message, identifier, documents, out),
        view,
    )
}

#[unsafe(no_mangle)]
pub extern "C" fn relay_move(
    bits: u32,
    sequences: u8,
    message: &[u8],
    behind: u32,
    out: &mut [u8],
    view: &mut [i64],
) -> u64
    ensures answers { result ≡ result_of (with_room (length view.old) (move (edition_of bits sequences) message.now behind (length out.old))) }
    ensures writes { out.new ≡ output (with_room (length view.old) (move (edition_of bits sequences) message.now behind (length out.old))) out.old }
    ensures shows { view.new ≡ numbers (viewed (with_room (length view.old) (move (edition_of bits sequences) message.now behind (length out.old)))) view.old }
{
    let e = edition(bits, sequences);
    if view.len() < NUMBERS {
        return without_view(message_move::check(e, message, behind, out.len()));
    }
    answered(message_move::move_body(e, message, behind, out), view)
}

#[unsafe(no_mangle)]
pub extern "C" fn relay_read_listing(listing: &[u8], answer: &mut [i64]) -> u64
    ensures answers { result ≡ result_of (with_answer (length answer.old) (read_listing listing.now)) }
    ensures shows { answer.new ≡ listing_numbers (with_answer (length answer.old) (read_listing listing.now)) answer.old }
{
    relay_c_listing::answer_listing(listing, answer)
}
