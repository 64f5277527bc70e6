// The checksum of bytes that were stored.
#![tactic(auto)]

ghost use Rattle.std.specs.Prelude.{◌≡◌, take};
ghost use Rattle.wire.specs.Bytes.{put};
ghost use Rattle.message.specs.Message.{checksum};

use opmsg_flags::checksummed;
use wire_put::put_word;

// Stores the checksum of the first `end` bytes behind them, where the flag word has bit 0 and there is room; else nothing changes.
pub fn seal(out: &mut [u8], end: usize, flags: u32)
    ensures { out.new ≡ put end (checksum flags (take end out.old)) out.old }
{
    if out.len() < end {
        return;
    }
    if checksummed(flags) {
        let sum = crc32c::crc(&out[..end]);
        put_word(out, end, sum);
    }
}
