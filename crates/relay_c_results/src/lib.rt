// Editions, views and results as numbers.
#![tactic(auto)]

pub mod numbers;

ghost use Rattle.std.specs.Prelude.{◌≡◌, ℕ, ◌+◌, ◌*◌, ◌^◌, ◌<◌, length};
ghost use Rattle.relay_c_results.specs.Interface.{edition_of, number_told, place_told, told_by, with_room, result_of, numbers};
ghost use Rattle.relay_c_results.specs.Inner.{Placed};

use crate::numbers::show;
use opmsg::{Edition, View};
use refusal::{Reason, Refusal};

// How many numbers a view takes.
pub const NUMBERS: usize = 107;

// An edition by its numbers.
#[tactic(auto, unfolding(crate::specs::Interface::edition_of))]
pub fn edition(bits: u32, sequences: u8) -> Edition
    ensures { result ≡ edition_of bits sequences }
{
    let sequences = sequences != 0;
    Edition { bits, sequences }
}

// The result of a call that refuses.
pub fn refusal(number: u32, place: usize) -> u64
    requires { place < 2 ^ 32 }
    ensures { result ≡ number * 2 ^ 32 + place }
{
    u64::from(number) * 0x1_0000_0000 + place as u64
}

// A refusal as C is told of it: a number and a place, whatever type says why.
pub trait Numbered {
    ghost number_of: { Self → ℕ };

    ghost place_of: { Self → ℕ };

    fn number(&self) -> u32
        ensures { result ≡ number_of self.now };

    fn place(&self) -> usize
        ensures { result ≡ place_of self.now };
}

impl Numbered for Refusal {
    ghost number_of = { number_told };

    ghost place_of = { place_told };

    fn number(&self) -> u32 {
        u32::from(self.reason)
    }

    fn place(&self) -> usize {
        self.place
    }
}

// A refusal by its number, which need not be one of the table.
#[derive(Clone, Copy, Debug, PartialEq, Eq)]
pub struct ByNumber {
    pub number: u32,
    pub place: usize,
}

impl Numbered for ByNumber {
    ghost number_of = { λ r. r.number };

    ghost place_of = { λ r. r.place };

    fn number(&self) -> u32 {
        self.number
    }

    fn place(&self) -> usize {
        self.place
    }
}

// The result of a call, and the numbers of its view where there is room for them.
#[inline(always)]
pub fn answered<R: Numbered + Copy>(reading: Result<View, R>, view: &mut [i64]) -> u64
    requires { Placed R.place_of reading }
    ensures answers { result ≡ result_of (with_room (length view.old) (told_by R.number_of R.place_of reading)) }
    ensures shows { view.new ≡ numbers (with_room (length view.old) (told_by R.number_of R.place_of reading)) view.old }
{
    match &reading {
        Ok(v) => {
            if view.len() < NUMBERS {
                return refusal(u32::from(Reason::ShortOutput), 0);
            }
            show(v, view);
            0
        }
        Err(r) => refusal(r.number(), r.place()),
    }
}

// The result of a call that has no room for its view, by what it decides without writing.
#[inline(always)]
pub fn without_view<R: Numbered + Copy>(decided: Result<(), R>) -> u64
    requires { Placed R.place_of decided }
    ensures { result ≡ result_of (with_room 0 (told_by R.number_of R.place_of decided)) }
{
    match &decided {
        Ok(()) => refusal(u32::from(Reason::ShortOutput), 0),
        Err(r) => refusal(r.number(), r.place()),
    }
}
