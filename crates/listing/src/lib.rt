// The listing of a stream of messages: what comes next by the bytes at hand, and what a turn makes of them.
#![tactic(auto)]

pub mod stream;
pub mod turns;

use listing_lines::Summary;

// The bytes that a program needs room for: a longer message is passed over.
pub const BUFFER_LENGTH: u32 = 65_536;

// What comes next in a stream.
#[derive(Drop)]
pub enum Step {
    Message(Summary),
    Big { length: u32 },
    Bad { number: u32, place: usize },
    More,
    End,
}

// Where a run over a stream stands: so many bytes and messages are behind it, and of a message of `length` bytes that is passed over,
// `left` are still to come.
#[derive(Clone, Copy)]
pub struct Run {
    pub offset: u64,
    pub messages: u64,
    pub length: u32,
    pub left: u32,
    pub done: bool,
}

// What a turn makes of the bytes at hand: where the run stands then, how many of them are used up, the length of the line that was
// written, and whether more bytes are to be read before the next turn.
#[derive(Drop)]
pub struct Turn {
    pub run: Run,
    pub used: usize,
    pub line: usize,
    pub more: bool,
}
