// The reader of stored listings, its answer as numbers.
#![tactic(auto)]

ghost use Rattle.std.specs.Prelude.{◌∷◌, ◌≡◌, ◌^◌, ◌<◌, Ok, length};
ghost use Rattle.listing_stored.specs.Answers.{told};
ghost use Rattle.listing_stored.specs.Stored.{read_listing};
ghost use Rattle.relay_c_results.specs.Interface.{result_of};
ghost use Rattle.relay_c_listing.specs.Interface.{with_answer, listing_numbers};

use listing_stored::{Listing, WrongLine, read_listing};
use refusal::Reason;
use relay_c_results::refusal;

// The answer's numbers, where there is room for them.
fn answered(listing: Listing, answer: &mut [i64]) -> u64
    requires { listing.messages < 2 ^ 63 }
    ensures answers { result ≡ result_of (with_answer (length answer.old) (told (Ok listing))) }
    ensures shows { answer.new ≡ listing_numbers (with_answer (length answer.old) (told (Ok listing))) answer.old }
{
    if answer.len() < 2 {
        return refusal(u32::from(Reason::ShortOutput), 0);
    }
    answer[0] = listing.version as i64;
    answer[1] = listing.messages as i64;
    0
}

// The result of reading a stored listing, and its answer's numbers. A line's number may have more than 32 bits, in a listing of over
// 80 GB: the result is the sum all the same.
pub fn answer_listing(listing: &[u8], answer: &mut [i64]) -> u64
    ensures answers { result ≡ result_of (with_answer (length answer.old) (read_listing listing.now)) }
    ensures shows { answer.new ≡ listing_numbers (with_answer (length answer.old) (read_listing listing.now)) answer.old }
{
    match read_listing(listing) {
        Ok(listing) => answered(listing, answer),
        Err(wrong) => (WrongLine::NUMBER as u64) * 0x1_0000_0000 + wrong.line,
    }
}
