// A stream of messages back to back, of which a buffer holds a part.
ghost use Rattle.std.specs.Prelude.{◌≡◌, length};
ghost use Rattle.opmsg.specs.Flags.{house};
ghost use Rattle.opmsg.specs.Read.{read};
ghost use Rattle.listing.specs.Next.{short, long, step_of, judge, next};
ghost use Rattle.listing.specs.Inner.{StepWithin};

use crate::{BUFFER_LENGTH, Step};
use listing_lines::Summary;
use opmsg::house;
use opmsg_header::MAX_LENGTH;
use wire::{under, word};

// The bytes at hand are short of a header, or of the message whose length it says and that the program can hold.
fn short(s: &[u8]) -> bool
    ensures { result ≡ short s.now }
{
    if s.len() < 16 {
        return true;
    }
    let n = word(s);
    if under(16, n) {
        return false;
    }
    if BUFFER_LENGTH < n {
        return false;
    }
    s.len() < n as usize
}

// Checks 1 and 2 are passed, and the message is longer than the program can hold.
fn long(s: &[u8]) -> bool
    ensures { result ≡ long s.now }
{
    if s.len() < 16 {
        return false;
    }
    let n = word(s);
    if MAX_LENGTH < n {
        return false;
    }
    BUFFER_LENGTH < n
}

// What a reading by the house edition says comes next.
#[tactic(auto, unfolding(crate::specs::Next::step_of))]
fn read_step(s: &[u8]) -> Step
    ensures { result ≡ step_of (read house s.now) }
{
    match opmsg_read::read(house(), s) {
        Ok(view) => Step::Message(Summary {
            length: view.length,
            request_id: view.request_id,
            response_to: view.response_to,
            flags: view.flags,
            sequences: opmsg_view::sequence_count(view),
            elements: view.elements,
        }),
        Err(refusal) => Step::Bad {
            number: u32::from(refusal.reason),
            place: refusal.place,
        },
    }
}

// A longer message is passed over with nothing else checked; any other is read.
fn judge(s: &[u8]) -> Step
    ensures { result ≡ judge s.now }
{
    if long(s) {
        return Step::Big { length: word(s) };
    }
    read_step(s)
}

// What comes next, where s are the bytes at hand; more may follow unless the input has ended.
pub fn next(s: &[u8], ended: bool) -> Step
    ensures value { result ≡ next ended s.now }
    ensures step_within { StepWithin (length s.now) result }
{
    if !ended {
        if short(s) {
            return Step::More;
        }
        return judge(s);
    }
    if s.len() == 0 {
        return Step::End;
    }
    judge(s)
}
