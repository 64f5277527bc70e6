// Names of elements and identifiers of sequences, by what is kept of the sections.
#![tactic(auto)]

ghost use Rattle.std.specs.Prelude.{false, ◌||◌, List, map, ◌≡◌, ℕ, ◌+◌, ◌-◌, ◌^◌, ◌<◌, ◌≤◌};
ghost use Rattle.opmsg.specs.Names.{among, part, texts, identifiers, names_of};
ghost use Rattle.opmsg.specs.Dotted.{found};
ghost use Rattle.opmsg.specs.declared.Section.{Section};
ghost use Rattle.opmsg.specs.Inner.{clashes, Shows, Filled};
ghost use Rattle.opmsg_body_names.specs.Inner.{Marks};

use opmsg::{Entry, Range, Section};
use opmsg_body_names::{is_marked, named, same};
use opmsg_dotted::{found, until_dot};
use wire::stretch;

// n bytes from a place of the message on, or those of them that there are; xs are the bytes from 20 on.
#[tactic(auto, unfolding(opmsg::specs::Names::part))]
fn part(xs: &[u8], place: usize, n: usize) -> &[u8]
    ensures { result.now ≡ part xs.now place n }
{
    stretch(xs, place.saturating_sub(20), n)
}

// A text at a range of the message.
pub fn at_range(xs: &[u8], range: Range) -> &[u8]
    ensures { result.now ≡ part xs.now range.start range.length }
{
    part(xs, range.start as usize, range.length as usize)
}

// A text is the identifier of a sequence among entries.
fn identified(xs: &[u8], entries: &[Entry], text: &[u8]) -> bool
    ensures { result ≡ among (texts (identifiers xs.now (map (λ x. x.section) entries.now))) text.now }
{
    for entry in entries {
        if let Section::Sequence { identifier, .. } = entry.section {
            if same(text, at_range(xs, identifier)) {
                return true;
            }
        }
    }
    false
}

// A text is a name of the elements or the identifier of a sequence among entries.
pub fn met(xs: &[u8], elements: &[u8], entries: &[Entry], text: &[u8]) -> bool
    requires { Filled elements.now }
    ensures { result ≡ (among (names_of elements.now) text.now || among (texts (identifiers xs.now (map (λ x. x.section) entries.now))) text.now) }
{
    named(elements, elements.len(), text) || identified(xs, entries, text)
}

// A text that is no name of the elements leads to a name within them: it has a dot, and is followed.
fn followed(elements: &[u8], text: &[u8]) -> bool
    requires { Filled elements.now × (among (names_of elements.now) text.now ≡ false) }
    ensures { result ≡ found elements.now text.now }
{
    if until_dot(text) == text.len() {
        return false;
    }
    found(elements, text)
}

// The same by marks of the elements' names: where a text's first name has none, the text leads nowhere.
pub fn reaches(elements: &[u8], marks: &[u64; 32], text: &[u8]) -> bool
    requires { Filled elements.now × Marks (names_of elements.now) marks.now × (among (names_of elements.now) text.now ≡ false) }
    ensures { result ≡ found elements.now text.now }
{
    let n = until_dot(text);
    if n == text.len() {
        return false;
    }
    is_marked(marks, &text[..n]) && found(elements, text)
}

// The elements of the body.
pub fn elements(xs: &[u8], body: usize, body_length: usize) -> &[u8]
    requires { body < 2 ^ 32 }
    ensures { result.now ≡ part xs.now (body + 4) (body_length - 5) }
{
    part(xs, body + 4, body_length.saturating_sub(5))
}

// A text is one of the body's names or of the identifiers, or leads to a name in the body.
pub fn taken(
    xs: &[u8],
    body: usize,
    body_length: usize,
    entries: [Entry; 17],
    used: usize,
    text: &[u8],
) -> bool
    requires { (used ≤ 17) × (body < 2 ^ 32) × Filled (part xs.now (body + 4) (body_length - 5)) }
    ensures { (qs : List Section) (sequences : ℕ) → Shows qs body body_length entries used sequences
        → result ≡ clashes xs.now qs text.now }
{
    let content = elements(xs, body, body_length);
    if met(xs, content, &entries[..used], text) {
        return true;
    }
    followed(content, text)
}
