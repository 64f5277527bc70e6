// Flag words.
#![tactic(auto)]

ghost use Rattle.std.specs.Prelude.{◌≡◌};
ghost use Rattle.opmsg.specs.Flags.{kept, all_known, checksummed};
ghost use Rattle.opmsg.specs.Layout.{checksum_size};

// The flag word with its known bits alone.
#[tactic(auto, using(crate::proofs::Masks::kept_is))]
pub fn kept(bits: u32, flags: u32) -> u32
    ensures { result ≡ kept bits flags }
{
    flags & bits
}

// Every required bit that is set is known.
#[tactic(auto, using(crate::proofs::Masks::required_known_is))]
pub fn required_known(bits: u32, flags: u32) -> bool
    ensures { result ≡ all_known 16 bits flags }
{
    all_known(bits, flags % 0x1_0000)
}

// Every bit that is set is known, optional ones too.
#[tactic(auto, using(crate::proofs::Masks::all_known_is))]
pub fn all_known(bits: u32, flags: u32) -> bool
    ensures { result ≡ all_known 32 bits flags }
{
    flags & bits == flags
}

// There is a checksum.
#[tactic(auto, unfolding(opmsg::specs::Flags::checksummed))]
pub fn checksummed(flags: u32) -> bool
    ensures { result ≡ checksummed flags }
{
    flags % 2 == 1
}

// How many bytes the checksum takes.
#[tactic(auto, unfolding(opmsg::specs::Layout::checksum_size))]
pub fn checksum_size(flags: u32) -> u32
    ensures { result ≡ checksum_size flags }
{
    if checksummed(flags) { 4 } else { 0 }
}
