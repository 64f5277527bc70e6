// The front door: every call, type and limit that a caller needs, each with its promise.
#![tactic(auto)]

pub use bson::MAX_LEVELS;
pub use bson_elements::MAX_ELEMENTS;
pub use listing::Step;
pub use listing::stream::next;
pub use listing_buffer::to_front;
pub use listing_lines::{Summary, bad_line, big_line, end_line, first_line, message_line};
pub use listing_stored::{Listing, WrongLine, read_listing};
pub use message_append::append;
pub use message_forward::forward;
pub use message_move::move_body;
pub use message_write::write;
pub use opmsg::{Edition, Entry, Range, Section, View, house};
pub use opmsg_header::MAX_LENGTH;
pub use opmsg_read::read;
pub use opmsg_sequences::MAX_SEQUENCES;
pub use opmsg_view::{body, sequence_count};
pub use refusal::{Reason, Refusal};
