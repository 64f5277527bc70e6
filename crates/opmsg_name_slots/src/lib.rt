// Check 23 by slots that a name's bytes lead to.
#![tactic(auto)]

ghost use Rattle.std.specs.Prelude.{◌≡◌, ℕ, ◌+◌, ◌^◌, ◌<◌, ◌≤◌, length, get_or};
ghost use Rattle.opmsg.specs.Inner.{Filled};
ghost use Rattle.opmsg_element_names.specs.Inner.{WithoutZero};
ghost use Rattle.opmsg_name_slots.specs.Inner.{Blank, reach, mixed, hash_of, home_of, Probed, Attempt};

use opmsg_element_names::{against, end_words, name, next};
use wire::word;

// How far on from their own slot names may stand.
const REACH: usize = 32;

// What a slot is found to be: one with the text, a free one, or none of those that serve it.
#[derive(Drop)]
pub enum Probe {
    Known,
    Open(usize),
    Crowd,
}

// A number made of a text's length and words.
fn mixed(n: usize, first: u32, last: u32, middle: u32) -> usize
    ensures { result ≡ mixed n first last middle }
{
    (n % 256 + first as usize + 3 * last as usize + 5 * middle as usize) * 0x9E3_779B / 0x40_0000
}

// A number made of a text.
fn hash(text: &[u8]) -> usize
    ensures { result ≡ hash_of text.now }
{
    let half = text.len() / 2;
    let e = end_words(text);
    mixed(text.len(), e.first, e.last, word(&text[half..]))
}

// The slot where a text belongs, of so many.
#[tactic(auto, unfolding(crate::specs::Inner::home_of))]
fn home(slots: usize, text: &[u8]) -> usize
    requires { reach < slots }
    ensures { result ≡ home_of slots text.now }
{
    hash(text) & (slots - REACH - 1)
}

// Looks a text up in the slots from where it belongs.
fn look(xs: &[u8], slots: &[u32], start: usize, text: &[u8]) -> Probe
    requires { ((j : ℕ) → get_or slots.now j 0 ≤ length xs.now) × (start + reach ≤ length slots.now) × (length xs.now < 2 ^ 32) × WithoutZero text.now }
    ensures { Probed xs.now slots.now text.now start result }
{
    for j in start..start + REACH {
        let entry = slots[j] as usize;
        if entry == 0 {
            return Probe::Open(j);
        }
        if against(xs, entry - 1, text).is_eq() {
            return Probe::Known;
        }
    }
    Probe::Crowd
}

// The place of the first element whose name is an earlier one's, or the end: by slots, while names stand at most so many steps behind
// where they belong, all together; none where they stand further.
pub fn by_slots(xs: &[u8], slots: &mut [u32], steps: usize) -> Option<usize>
    requires { Filled xs.now × (length xs.now < 2 ^ 32) × Blank slots.old × (reach < length slots.old) }
    ensures { Attempt xs.now result }
{
    let mut left = steps;
    let mut i: usize = 0;
    // A turn passes what its element takes, so there is no range for a `for` to go over.
    while i < xs.len() {
        let text = name(xs, i);
        let start = home(slots.len(), text);
        match look(xs, slots, start, text) {
            Probe::Known => return Some(i),
            Probe::Crowd => return None,
            Probe::Open(j) => {
                if left < j - start {
                    return None;
                }
                left -= j - start;
                slots[j] = (i + 1) as u32;
                i = next(xs, i, text.len());
            }
        }
    }
    Some(xs.len())
}

// Slots that hold nothing.
pub fn many_slots() -> [u32; 8224]
    ensures { Blank result × (length result ≡ 8224) }
{
    [0u32; 8224]
}
