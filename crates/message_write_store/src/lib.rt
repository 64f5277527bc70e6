// The bytes of a message that is written, stored from left to right once all is decided.
#![tactic(auto)]

ghost use Rattle.std.specs.Prelude.{◌∷◌, ◌≡◌, ◌≤◌, length};
ghost use Rattle.message.specs.Message.{whole_length};
ghost use Rattle.message.specs.Write.{written};
ghost use Rattle.message_seal.specs.Inner.{overwritten};

use message_seal::seal;
use wire::bits32;
use wire_put::{put, put_word};

// Stores a message that has a body alone.
pub fn written(
    request_id: i32,
    response_to: i32,
    flags: u32,
    body: &[u8],
    size: u32,
    out: &mut [u8],
)
    requires { (size ≡ whole_length flags (0 ∷ body.now)) × (size ≤ length out.old) }
    ensures { out.new ≡ overwritten (written request_id response_to flags body.now) out.old }
{
    put_word(out, 0, size);
    put_word(out, 4, bits32(request_id));
    put_word(out, 8, bits32(response_to));
    put_word(out, 12, 2013);
    put_word(out, 16, flags);
    out[20] = 0;
    put(out, 21, body);
    seal(out, 21 + body.len(), flags);
}
