// Input that is read on behind the bytes that a buffer holds.
#![tactic(auto)]

pub mod arguments;

ghost use Rattle.std.specs.Prelude.{◌≡◌, ◌==◌, ◌-◌, ◌<◌, ◌≤◌, length, take, drop};

use listing_buffer::to_front;
use std::fmt::InlineText;
use std::io::{Error, Read};

// The descriptor of standard error.
const STDERR: i32 = 2;

// The bytes at hand: those of a buffer from `at` to `end`, behind which more may come unless the input has ended.
#[derive(Clone, Copy)]
pub struct Window {
    pub at: usize,
    pub end: usize,
    pub ended: bool,
}

impl Window {
    // What is at hand once the input was read on, as `fill` does: no byte read means the end.
    pub fn filled<R: Read>(self, input: &mut R, buf: &mut [u8], name: &[u8]) -> Window
        requires { (self.at ≤ self.end) × (self.end ≤ length buf.old) × (self.end - self.at < length buf.old) }
        ensures front { take (self.end - self.at) buf.new ≡ take (self.end - self.at) (drop self.at buf.old) }
        ensures inside { (self.end - self.at ≤ result.end) × (result.end ≤ length buf.old) }
        ensures told { result ≡ record { at = 0; end = result.end; ended = result.end == self.end - self.at } }
    {
        let kept = self.end - self.at;
        let end = fill(input, buf, self.at, self.end, name);
        Window {
            at: 0,
            end,
            ended: end == kept,
        }
    }
}

// Moves the bytes at hand to the front and reads on behind them, where there is room, so that no byte read means the end; answers where
// what was read ends. A read that fails counts as the end of the input, and standard error says so behind the name.
pub fn fill<R: Read>(input: &mut R, buf: &mut [u8], at: usize, end: usize, name: &[u8]) -> usize
    requires { (at ≤ end) × (end ≤ length buf.old) × (end - at < length buf.old) }
    ensures front { take (end - at) buf.new ≡ take (end - at) (drop at buf.old) }
    ensures inside { (end - at ≤ result) × (result ≤ length buf.old) }
{
    to_front(buf, at, end);
    let kept = end - at;
    let room = &mut buf[kept..];
    match input.read(room) {
        Ok(got) => kept + got,
        Err(error) => {
            fail(name, error);
            kept
        }
    }
}

// Writes a line to standard error: what failed, as the caller names it, a colon and the system's text for the error.
pub fn fail(what: &[u8], error: Error) {
    let text = InlineText::<256>::of(error);
    let text = text.as_str();
    let words = match text.rsplit_once(" (os error ") {
        Some((words, _)) => words,
        None => text,
    };
    io::write_all(STDERR, what);
    io::write_all(STDERR, b": ");
    io::write_all(STDERR, words.as_bytes());
    io::write_all(STDERR, b"\n");
}
