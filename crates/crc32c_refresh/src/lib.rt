// A checksum refreshed without rereading the message, when only its flag word changes.
#![tactic(auto)]

ghost use Rattle.std.specs.Prelude.{◌≡◌};
ghost use Rattle.crc32c_refresh.specs.Refresh.{refreshed};

mod operator;

// The checksum with the new flag word, from the one with the old and the number of bytes between the flag word and the checksum. The change goes
// over the flag word's own four bytes, and over those that follow as over zeros: up to 255 of them one by one, and the others by blocks.
pub fn refresh(checksum: u32, old: u32, new: u32, following: u64) -> u32
    ensures { result ≡ refreshed checksum old new following }
{
    let zeros = [0u8; 259];
    let few = 4 + (following % operator::BLOCK) as usize;
    let change = crc32c::update(old ^ new, &zeros[..few]);
    checksum ^ operator::advance(following / operator::BLOCK, change)
}
