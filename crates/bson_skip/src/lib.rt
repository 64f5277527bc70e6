// Elements that were read, passed over.
#![tactic(auto)]

ghost use Rattle.std.specs.Prelude.{◌≡◌, ℕ, ◌<◌, ◌≤◌, length, drop};
ghost use Rattle.wire.specs.Bytes.{until_zero};
ghost use Rattle.wire.specs.Outcome.{ok};
ghost use Rattle.bson_values.specs.Value.{Value, regex};
ghost use Rattle.bson_values.specs.Inner.{rule_of};
ghost use Rattle.bson_elements.specs.Element.{element_size};
ghost use Rattle.bson_skip.specs.Inner.{span};

use bson_values::{Kind, kind_of};
use wire::{until_zero, word};

// How many bytes two zero-ended strings take, which keep their rule.
fn pair(s: &[u8]) -> usize
    requires { (v n : ℕ) × (regex v s.now ≡ ok n) }
    ensures { (v n : ℕ) → regex v s.now ≡ ok n → result ≡ n }
{
    let second = until_zero(s) + 1;
    second + until_zero(&s[second..]) + 1
}

// How many bytes a value of some kind takes, which keeps its rule.
fn skip(k: Kind, s: &[u8]) -> usize
    requires { (v : ℕ) × (x : Value) × (rule_of k v s.now ≡ ok x) }
    ensures { (v : ℕ) (x : Value) → rule_of k v s.now ≡ ok x → result ≡ span s.now x }
{
    match k {
        Kind::Bytes(n) => n,
        Kind::Boolean => 1,
        Kind::String => 4 + word(s) as usize,
        Kind::Binary => 5 + word(s) as usize,
        Kind::Regex => pair(s),
        Kind::Pointer => 16 + word(s) as usize,
        Kind::Embedded | Kind::Code => word(s) as usize,
    }
}

// How many bytes the element at the start of s takes, which was read and whose name has n bytes: by the lengths that it states, and
// nothing is checked again.
pub fn element_size(s: &[u8], n: usize) -> usize
    requires { (n ≡ until_zero (drop 1 s.now)) × (0 < element_size s.now) × (element_size s.now ≤ length s.now) }
    ensures { result ≡ element_size s.now }
{
    let start = n + 2;
    let kind = kind_of(s[0]).unwrap();
    start + skip(kind, &s[start..])
}
