// A view as numbers.
ghost use Rattle.std.specs.Prelude.{[], ◌∷◌, ◌++◌, ◌≡◌, ◌+◌, ◌≤◌, pos, length, take, drop};
ghost use Rattle.relay_c_results.specs.Numbers.{section_numbers, view_numbers, view_size};

use opmsg::{Section, View};

// Six numbers, at a place: a kind, and five that have no sign. Stored one by one: as an array that is copied to its place, `show` takes some 700
// instructions instead of 260 for the view of a message of one section.
fn six(out: &mut [i64], at: usize, kind: i64, a: u32, b: u32, c: u32, d: u32, e: u32)
    requires { at + 6 ≤ length out.old }
    ensures { out.new ≡ take at out.old ++ (kind ∷ pos a ∷ pos b ∷ pos c ∷ pos d ∷ pos e ∷ []) ++ drop (at + 6) out.old }
{
    out[at] = kind;
    out[at + 1] = a as i64;
    out[at + 2] = b as i64;
    out[at + 3] = c as i64;
    out[at + 4] = d as i64;
    out[at + 5] = e as i64;
}

// The numbers of an entry, at a place.
fn entry(out: &mut [i64], at: usize, section: Section)
    requires { at + 6 ≤ length out.old }
    ensures { out.new ≡ take at out.old ++ section_numbers section ++ drop (at + 6) out.old }
{
    match section {
        Section::None => six(out, at, -1, 0, 0, 0, 0, 0),
        Section::Body(range) => six(out, at, 0, 0, 0, range.start, range.length, 0),
        Section::Sequence {
            identifier,
            documents,
            number,
        } => six(
            out,
            at,
            1,
            identifier.start,
            identifier.length,
            documents.start,
            documents.length,
            number,
        ),
    }
}

// The numbers of a view, at the start of what is lent. Most entries say none, so that is tested first.
#[tactic(auto, unfolding(crate::specs::Numbers::view_size))]
pub fn show(v: &View, out: &mut [i64])
    requires { view_size ≤ length out.old }
    ensures { out.new ≡ view_numbers v.now ++ drop view_size out.old }
{
    out[0] = v.length as i64;
    out[1] = v.request_id as i64;
    out[2] = v.response_to as i64;
    out[3] = v.flags as i64;
    out[4] = v.elements as i64;
    for i in 0..17 {
        let section = v.entries[i].section;
        match section {
            Section::None => six(out, 5 + 6 * i, -1, 0, 0, 0, 0, 0),
            _ => entry(out, 5 + 6 * i, section),
        }
    }
}
