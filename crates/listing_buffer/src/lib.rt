// A buffer that is filled again as its bytes are used up.
#![tactic(auto)]

ghost use Rattle.std.specs.Prelude.{◌≡◌};
ghost use Rattle.listing_buffer.specs.Front.{to_front};

// Moves the bytes from a place to an end to the front, where there are such bytes; else nothing changes.
#[tactic(auto, unfolding(crate::specs::Front::to_front))]
pub fn to_front(s: &mut [u8], at: usize, end: usize)
    ensures { s.new ≡ to_front at end s.old }
{
    if at <= end && end <= s.len() {
        s.copy_within(at..end, 0);
    }
}
