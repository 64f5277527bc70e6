// The fields of a line: numbers in decimal digits, and the byte behind them.
ghost use Rattle.std.specs.Prelude.{List, [], ◌∷◌, ◌++◌, ℕ, ◌+◌, ◌≤◌, ◌≡◌, if◌then◌else◌};
ghost use Rattle.listing_lines.specs.Decimal.{decimal, signed_decimal};
ghost use Rattle.listing_lines.specs.Written.{TextWritten};

// The byte between two fields, and the one behind the last.
pub(crate) const TAB: u8 = b'\t';

pub(crate) const NEWLINE: u8 = b'\n';

// Whether a number has a minus, and its size.
#[tactic(auto, using(crate::proofs::Digits::signed_parts))]
fn sign_and_size(x: i32) -> (bool, u32)
    ensures { signed_decimal x ≡ (if result.0 then 45 ∷ decimal result.1 else decimal result.1) }
{
    (x < 0, x.unsigned_abs())
}

// A line that is written to lent bytes: its text takes the first `len` of them.
#[derive(Drop)]
pub(crate) struct Line<'a> {
    pub(crate) out: &'a mut [u8; 256],
    pub(crate) len: usize,
}

impl<'a> Line<'a> {
    // Writes n behind the text, and a byte behind it.
    pub(crate) fn number(&mut self, n: u64, last: u8)
        requires { self.old.len + 21 ≤ 256 }
        ensures written { (text old : List ℕ) → TextWritten text old self.old.out.now self.old.len → TextWritten (text ++ (decimal n ++ last ∷ [])) old self.new.out.now self.new.len }
        ensures upper_bound { self.new.len ≤ self.old.len + 21 }
        ensures lent { self.new.out.ghost_name ≡ self.old.out.ghost_name }
    {
        let mut text = [0u8; 20];
        let k = io::decimal(n, &mut text);
        let at = self.len;
        let end = at + k;
        wire_put::put(self.out, at, &text[..k]);
        self.out[end] = last;
        self.len = end + 1;
    }

    // The same of a signed number.
    pub(crate) fn signed(&mut self, x: i32, last: u8)
        requires { self.old.len + 22 ≤ 256 }
        ensures written { (text old : List ℕ) → TextWritten text old self.old.out.now self.old.len → TextWritten (text ++ (signed_decimal x ++ last ∷ [])) old self.new.out.now self.new.len }
        ensures upper_bound { self.new.len ≤ self.old.len + 22 }
        ensures lent { self.new.out.ghost_name ≡ self.old.out.ghost_name }
    {
        let (minus, size) = sign_and_size(x);
        if minus {
            let at = self.len;
            wire_put::put(self.out, at, b"-");
            self.len = at + 1;
        }
        self.number(size as u64, last);
    }
}
