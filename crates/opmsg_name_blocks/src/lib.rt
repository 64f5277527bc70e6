// Check 23 by blocks of places that are sorted by the names there.
#![tactic(auto)]

ghost use Rattle.std.specs.Prelude.{◌≡◌, ◌-◌, ◌^◌, ◌<◌, ◌≤◌, length};
ghost use Rattle.opmsg.specs.Inner.{Filled};
ghost use Rattle.opmsg_element_names.specs.Inner.{WithoutZero, First};
ghost use Rattle.opmsg_name_blocks.specs.Inner.{Sorted, Looked, Inserted, Cleared};

use opmsg_element_names::{against, name, next};
use std::cmp::Ordering;

// Where a text belongs among the names at the first m places of a table, or none where it is there.
fn find(xs: &[u8], table: &[u32], m: usize, text: &[u8]) -> Option<usize>
    requires { Sorted xs.now table.now m × (length xs.now < 2 ^ 32) × WithoutZero text.now }
    ensures { Looked xs.now table.now m text.now result }
{
    let mut low: usize = 0;
    let mut high = m;
    // A turn halves what is left; binary_search_by would ask for a test of any number, and a name is read at places in xs alone.
    while low < high {
        let middle = low + (high - low) / 2;
        let place = table[middle] as usize;
        match against(xs, place, text) {
            Ordering::Less => high = middle,
            Ordering::Equal => return None,
            Ordering::Greater => low = middle + 1,
        }
    }
    Some(low)
}

// Puts a place into a table, before those of the first m entries that stand from i on.
#[tactic(auto, using(crate::proofs::Table::put_in))]
fn insert(table: &mut [u32], m: usize, i: usize, place: u32)
    requires { (i ≤ m) × (m < length table.old) }
    ensures size { length table.new ≡ length table.old }
    ensures puts { Inserted table.old m i place table.new }
{
    table.copy_within(i..m, i + 1);
    table[i] = place;
}

// What a block leaves: where the next one starts, and the bound that no later one looks past.
#[derive(Drop)]
pub struct Left {
    pub next: usize,
    pub bound: usize,
}

// The block of names from place s on: as many as the table has room for are entered, and each before the bound is looked up.
fn block(xs: &[u8], table: &mut [u32], s: usize, bound: usize) -> Left
    requires { Filled xs.now × Cleared xs.now s bound × (s < bound) × (length xs.now < 2 ^ 32) × (0 < length table.old) }
    ensures size { length table.new ≡ length table.old }
    ensures clears { Cleared xs.now result.next result.bound × (result.bound - result.next < bound - s) }
{
    let mut m: usize = 0;
    let mut i = s;
    let mut resume = s;
    // A turn passes what its element takes, so there is no range for a `for` to go over.
    while i < bound {
        let text = name(xs, i);
        let Some(k) = find(xs, table, m, text) else {
            return Left {
                next: resume,
                bound: i,
            };
        };
        let after = next(xs, i, text.len());
        if m < table.len() {
            insert(table, m, k, i as u32);
            m += 1;
            resume = after;
        }
        i = after;
    }
    Left {
        next: resume,
        bound,
    }
}

// The place of the first element whose name is an earlier one's, or the end: block by block.
pub fn by_blocks(xs: &[u8], table: &mut [u32]) -> usize
    requires { Filled xs.now × (length xs.now < 2 ^ 32) × (0 < length table.old) }
    ensures { First xs.now result }
{
    let mut s: usize = 0;
    let mut bound = xs.len();
    // A turn passes a block, so there is no range for a `for` to go over.
    while s < bound {
        let b = block(xs, table, s, bound);
        s = b.next;
        bound = b.bound;
    }
    bound
}
