// The lines of a listing.
#![tactic(auto)]

mod fields;

ghost use Rattle.io.specs.Counts.{IsPrefixLen};
ghost use Rattle.listing_lines.specs.Lines.{version, first_line, message_line, big_line, bad_line, end_line};
ghost use Rattle.listing_lines.specs.Written.{TextWritten};

use crate::fields::{Line, NEWLINE, TAB};

// The version of the listings that are written.
pub const VERSION: u64 = 2;

// What a line tells of a message.
#[derive(Clone, Copy, Debug, PartialEq, Eq)]
pub struct Summary {
    pub length: u32,
    pub request_id: i32,
    pub response_to: i32,
    pub flags: u32,
    pub sequences: u32,
    pub elements: u32,
}

// Writes the first line to the start of out and answers its length.
pub fn first_line(out: &mut [u8; 256]) -> usize
    ensures text_written { TextWritten (first_line version) out.old out.new result }
    ensures prefix_len { IsPrefixLen result out.new }
{
    wire_put::put(out, 0, b"relay-log\t");
    let mut line = Line { out, len: 10 };
    line.number(VERSION, NEWLINE);
    line.len
}

// Writes the line of a message and answers its length.
pub fn message_line(out: &mut [u8; 256], offset: u64, m: Summary) -> usize
    ensures text_written { TextWritten (message_line offset m) out.old out.new result }
    ensures prefix_len { IsPrefixLen result out.new }
{
    wire_put::put(out, 0, b"msg\t");
    let mut line = Line { out, len: 4 };
    line.number(offset, TAB);
    line.number(m.length as u64, TAB);
    line.signed(m.request_id, TAB);
    line.signed(m.response_to, TAB);
    line.number(m.flags as u64, TAB);
    line.number(m.sequences as u64, TAB);
    line.number(m.elements as u64, NEWLINE);
    line.len
}

// Writes the line of a message that is passed over and answers its length.
pub fn big_line(out: &mut [u8; 256], offset: u64, length: u32) -> usize
    ensures text_written { TextWritten (big_line offset length) out.old out.new result }
    ensures prefix_len { IsPrefixLen result out.new }
{
    wire_put::put(out, 0, b"big\t");
    let mut line = Line { out, len: 4 };
    line.number(offset, TAB);
    line.number(length as u64, NEWLINE);
    line.len
}

// Writes the line of a refusal and answers its length.
pub fn bad_line(out: &mut [u8; 256], offset: u64, refusal: u32, place: usize) -> usize
    ensures text_written { TextWritten (bad_line offset refusal place) out.old out.new result }
    ensures prefix_len { IsPrefixLen result out.new }
{
    wire_put::put(out, 0, b"bad\t");
    let mut line = Line { out, len: 4 };
    line.number(offset, TAB);
    line.number(refusal as u64, TAB);
    line.number(place as u64, NEWLINE);
    line.len
}

// Writes the last line and answers its length.
pub fn end_line(out: &mut [u8; 256], messages: u64) -> usize
    ensures text_written { TextWritten (end_line messages) out.old out.new result }
    ensures prefix_len { IsPrefixLen result out.new }
{
    wire_put::put(out, 0, b"end\t");
    let mut line = Line { out, len: 4 };
    line.number(messages, NEWLINE);
    line.len
}
