// Check 23 by tables of places, where the marks of the names do not settle it: slots that a name leads to, and where these are
// crowded, blocks of places sorted by the names there.
#![tactic(auto)]

ghost use Rattle.std.specs.Prelude.{[], ◌≡◌, ◌+◌, ◌^◌, ◌<◌, ◌≤◌, length};
ghost use Rattle.opmsg.specs.Names.{never, distinct, element_names};
ghost use Rattle.opmsg.specs.Inner.{judged, Filled};
ghost use Rattle.opmsg_element_names.specs.Inner.{First};
ghost use Rattle.opmsg_name_slots.specs.Inner.{Attempt};

use opmsg_name_blocks::by_blocks;
use opmsg_name_slots::{by_slots, many_slots};
use refusal::{Reason, Refusal};

// How many names are few: a small table has room for them, and slots would cost more than they save.
const FEW: usize = 64;

// How many names a middling table serves best: each pass over more of them costs more than a larger one, which takes longer to keep sorted.
const MANY: usize = 32_768;

// The place of the first element whose name is an earlier one's, or the end, by a table of N places.
fn by_table<const N: usize>(xs: &[u8]) -> usize
    requires { Filled xs.now × (length xs.now < 2 ^ 32) × (0 < N) × (N ≤ 16384) }
    ensures { First xs.now result }
{
    let mut table = [0u32; N];
    by_blocks(xs, &mut table)
}

// The same by slots, while names stand at most so many steps behind where they belong, all together. The slots are gone from the frame
// before a table is made.
fn tried_slots(xs: &[u8], steps: usize) -> Option<usize>
    requires { Filled xs.now × (length xs.now < 2 ^ 32) }
    ensures { Attempt xs.now result }
{
    let mut slots = many_slots();
    by_slots(xs, &mut slots, steps)
}

// The same by a table for few names, by slots, or where these are crowded by a table for many names or for as many as a message may
// have. A number of names chooses, whatever it is.
fn first_again(xs: &[u8], number: usize) -> usize
    requires { Filled xs.now × (length xs.now < 2 ^ 32) }
    ensures { First xs.now result }
{
    if number <= FEW {
        return by_table::<64>(xs);
    }
    match tried_slots(xs, number) {
        Some(place) => place,
        None if number <= MANY => by_table::<2048>(xs),
        None => by_table::<16384>(xs),
    }
}

// Check 23 of a body's elements xs, the first at a place, of which there are about so many.
#[tactic(auto, using(opmsg_element_names::proofs::Starts::first_none, opmsg_element_names::proofs::Starts::first_again))]
pub fn names_differ(xs: &[u8], at: usize, number: usize) -> Result<(), Refusal>
    requires { Filled xs.now × (at + length xs.now < 2 ^ 64) × (length xs.now < 2 ^ 32) }
    ensures { judged result ≡ distinct 23 never [] (element_names (length xs.now) at xs.now) }
{
    let place = first_again(xs, number);
    if place < xs.len() {
        return Err(Reason::RepeatedName.at(at + place + 1));
    }
    Ok(())
}
