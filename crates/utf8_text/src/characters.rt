// One character, by the table of forms: its first byte tells the form. How many bytes it has is a number, 0 where there is none, as
// `character_of` of utf8/specs/Text.antt has it.
ghost use Rattle.std.specs.Prelude.{◌≡◌, [], ◌∷◌, ◌<◌, ◌≤◌, length, get_or, drop};
ghost use Rattle.utf8.specs.Utf8.{◌–◌, tail, forms};
ghost use Rattle.utf8.specs.Text.{starts, character_of};
ghost use Rattle.utf8.specs.Inner.{counted};

// The byte at place i of s is there, and from low to high.
fn among(s: &[u8], i: usize, low: u8, high: u8) -> bool
    ensures { result ≡ starts (low – high ∷ []) (drop i s.now) }
{
    i < s.len() && low <= s[i] && s[i] <= high
}

// Two bytes, if the second is a tail.
pub(crate) fn two(s: &[u8]) -> usize
    ensures { result ≡ counted 2 (starts (tail ∷ []) (drop 1 s.now)) }
{
    if among(s, 1, 0x80, 0xBF) { 2 } else { 0 }
}

// Three bytes, if the second is from low to high and the third a tail.
fn three(s: &[u8], low: u8, high: u8) -> usize
    ensures { result ≡ counted 3 (starts (low – high ∷ tail ∷ []) (drop 1 s.now)) }
{
    if among(s, 1, low, high) && among(s, 2, 0x80, 0xBF) {
        3
    } else {
        0
    }
}

// Four bytes, if the second is from low to high and the others are tails.
fn four(s: &[u8], low: u8, high: u8) -> usize
    ensures { result ≡ counted 4 (starts (low – high ∷ tail ∷ tail ∷ []) (drop 1 s.now)) }
{
    if among(s, 1, low, high) && among(s, 2, 0x80, 0xBF) && among(s, 3, 0x80, 0xBF) {
        4
    } else {
        0
    }
}

// A character whose first byte is from 0xE0 to 0xEF.
pub(crate) fn of_three(s: &[u8]) -> usize
    requires { (0 < length s.now) × (0xE0 ≤ get_or s.now 0 0) × (get_or s.now 0 0 < 0xF0) }
    ensures { result ≡ character_of forms s.now }
{
    match s[0] {
        0xE0 => three(s, 0xA0, 0xBF),
        0xED => three(s, 0x80, 0x9F),
        _ => three(s, 0x80, 0xBF),
    }
}

// A character whose first byte is at least 0xF0.
fn of_four(s: &[u8]) -> usize
    requires { (0 < length s.now) × (0xF0 ≤ get_or s.now 0 0) }
    ensures { result ≡ character_of forms s.now }
{
    match s[0] {
        0xF0 => four(s, 0x90, 0xBF),
        0xF1..=0xF3 => four(s, 0x80, 0xBF),
        0xF4 => four(s, 0x80, 0x8F),
        _ => 0,
    }
}

// A character whose first byte is from 0x80 to 0xDF: two bytes, or 0 where there is none.
pub(crate) fn of_two(s: &[u8]) -> usize
    requires { (0 < length s.now) × (0x80 ≤ get_or s.now 0 0) × (get_or s.now 0 0 < 0xE0) }
    ensures { result ≡ character_of forms s.now }
{
    if s[0] < 0xC2 { 0 } else { two(s) }
}

// A character whose first byte is at least 0xE0: three bytes or four, or 0 where there is none.
pub(crate) fn of_more(s: &[u8]) -> usize
    requires { (0 < length s.now) × (0xE0 ≤ get_or s.now 0 0) }
    ensures { result ≡ character_of forms s.now }
{
    if s[0] < 0xF0 { of_three(s) } else { of_four(s) }
}
