// BSON, checked for structure at all levels.
#![tactic(auto)]

mod documents;

ghost use Rattle.std.specs.Prelude.{◌≡◌};
ghost use Rattle.bson.specs.Document.{told, document_at, max_levels};

use refusal::Refusal;

// The most levels of documents.
pub const MAX_LEVELS: u32 = 32;

// What was read: it took `size` bytes, and `count` elements are counted by now.
#[derive(Clone, Copy, Debug, PartialEq, Eq)]
pub struct Walk {
    pub size: usize,
    pub count: u32,
}

// Reads the document at the start of s, at place `at` of a message with `count` elements counted before it.
pub fn document(s: &[u8], at: u32, count: u32) -> Result<Walk, Refusal>
    ensures { told result ≡ document_at max_levels at s.now count }
{
    documents::document_at(s, at as usize, MAX_LEVELS, count)
}
