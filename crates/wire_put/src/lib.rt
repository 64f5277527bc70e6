// Bytes and words stored at a place.
#![tactic(auto)]

ghost use Rattle.std.specs.Prelude.{◌≡◌};
ghost use Rattle.wire.specs.Bytes.{le32, put};

// Stores the bytes s at a place, where they fit; else nothing changes.
#[tactic(auto, using(wire::proofs::Parts::put_too_long))]
pub fn put(out: &mut [u8], at: usize, s: &[u8])
    ensures { out.new ≡ put at s.now out.old }
{
    if out.len() < s.len() {
        return;
    }
    if out.len() - s.len() < at {
        return;
    }
    out[at..at + s.len()].copy_from_slice(s);
}

// Stores the four bytes of w at a place, where they fit; else nothing changes.
#[tactic(auto, using(wire::proofs::Bytes::le32_is))]
pub fn put_word(out: &mut [u8], at: usize, w: u32)
    ensures { out.new ≡ put at (le32 w) out.old }
{
    put(out, at, &w.to_le_bytes());
}
