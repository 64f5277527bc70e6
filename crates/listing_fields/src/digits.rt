// The numbers in fields.
ghost use Rattle.std.specs.Prelude.{◌≡◌, ℕ, ◌-◌};
ghost use Rattle.opmsg.specs.Names.{same_text};
ghost use Rattle.listing_lines.specs.Decimal.{decimal};
ghost use Rattle.listing_fields.specs.Numbers.{number, between, signed_number};
ghost use Rattle.listing_fields.specs.Inner.{numbered, Spells, Tells};

// The largest signed number of 32 bits.
const MOST_SIGNED: u64 = 0x7FFF_FFFF;

// What a byte adds to a number as its last digit.
fn digit(x: u8) -> u64
    ensures { result ≡ x - 48 }
{
    x.saturating_sub(b'0') as u64
}

// The number that digits spell, unless it has more than 64 bits.
fn spelled(f: &[u8]) -> Option<u64>
    ensures { Spells f.now result }
{
    let mut n: u64 = 0;
    for x in f {
        n = n.checked_mul(10)?.checked_add(digit(*x))?;
    }
    Some(n)
}

// The field is n, as a listing writes it.
fn written(n: u64, f: &[u8]) -> bool
    ensures { result ≡ same_text f.now (decimal n) }
{
    let mut text = [0u8; 20];
    let k = io::decimal(n, &mut text);
    f == &text[..k]
}

// An unsigned 64-bit number without leading zeros.
pub fn number(f: &[u8]) -> Option<u64>
    ensures { (k : ℕ) → number k f.now ≡ numbered k result }
{
    let n = spelled(f)?;
    if written(n, f) { Some(n) } else { None }
}

// Such a number from `least` to `most`.
pub fn between(least: u64, most: u64, f: &[u8]) -> Option<u64>
    ensures { (k : ℕ) → between k least most f.now ≡ numbered k result }
{
    let n = number(f)?;
    if n < least || most < n { None } else { Some(n) }
}

// Whether a field is a signed 32-bit number, without leading zeros or -0.
pub fn is_signed(f: &[u8]) -> bool
    ensures { Tells (λ k. signed_number k f.now) result }
{
    match f.strip_prefix(b"-") {
        Some(digits) => between(1, MOST_SIGNED + 1, digits).is_some(),
        None => between(0, MOST_SIGNED, f).is_some(),
    }
}
