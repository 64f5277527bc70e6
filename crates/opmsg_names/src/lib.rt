// Checks 22 to 24: names and identifiers that must differ.
#![tactic(auto)]

ghost use Rattle.std.specs.Prelude.{false, List, map, ◌≡◌, ◌+◌, ◌-◌, ◌^◌, ◌<◌, ◌≤◌};
ghost use Rattle.opmsg.specs.Names.{among, distinct, part, identifiers, names_of};
ghost use Rattle.opmsg.specs.Dotted.{found};
ghost use Rattle.opmsg.specs.declared.Section.{Section};
ghost use Rattle.opmsg.specs.Read.{distinct_names};
ghost use Rattle.opmsg.specs.Inner.{judged, Shows, Filled, Flat};
ghost use Rattle.opmsg_body_names.specs.Inner.{Marks};

use opmsg::{Content, Entry, Section};
use opmsg_body_names::{body_names, mark};
use opmsg_dotted::undotted;
use opmsg_identifiers::{at_range, elements, met, reaches};
use refusal::{Reason, Refusal};

// A text that is no name of the elements leads on to a name in their documents, if there are any. Most texts have no dot.
#[tactic(auto, using(opmsg_dotted::proofs::Follow::found_flat, opmsg_dotted::proofs::Follow::found_plain))]
fn leads(elements: &[u8], marks: &[u64; 32], nested: bool, text: &[u8]) -> bool
    requires { Filled elements.now × Marks (names_of elements.now) marks.now × (nested ≡ false → Flat elements.now) × (among (names_of elements.now) text.now ≡ false) }
    ensures { result ≡ found elements.now text.now }
{
    if !nested {
        return false;
    }
    if undotted(text) {
        return false;
    }
    reaches(elements, marks, text)
}

// Check 24, given the body's elements, the marks of their names, and whether documents are among them. An identifier whose mark is met is
// compared, and one with a dot is followed where there is a document.
fn identifiers_differ(
    xs: &[u8],
    elements: &[u8],
    marks: &mut [u64; 32],
    nested: bool,
    entries: &[Entry],
) -> Result<(), Refusal>
    requires { Filled elements.now × Marks (names_of elements.now) marks.old × (nested ≡ false → Flat elements.now) }
    ensures { judged result ≡ distinct 24 (found elements.now) (names_of elements.now) (identifiers xs.now (map (λ x. x.section) entries.now)) }
{
    for (k, entry) in entries.iter().enumerate() {
        if let Section::Sequence { identifier, .. } = entry.section {
            let text = at_range(xs, identifier);
            if mark(marks, text) && met(xs, elements, &entries[..k], text) {
                return Err(Reason::RepeatedIdentifier.at(identifier.start as usize));
            }
            if leads(elements, marks, nested, text) {
                return Err(Reason::RepeatedIdentifier.at(identifier.start as usize));
            }
        }
    }
    Ok(())
}

// Checks 22 to 24 of sections that end at a place and have the bytes xs, by what is kept of them.
pub fn distinct_names(
    end: usize,
    xs: &[u8],
    c: &Content,
    entries: &[Entry; 17],
) -> Result<(), Refusal>
    requires { (c.now.used ≤ 17) × (c.now.body < 2 ^ 32) × Filled (part xs.now (c.now.body + 4) (c.now.body_length - 5)) }
    ensures { (qs : List Section) → Shows qs c.now.body c.now.body_length entries.now c.now.used c.now.sequences → judged result ≡ distinct_names end xs.now qs }
{
    if c.body == 0 {
        return Err(Reason::NoBody.at(end));
    }
    let content = elements(xs, c.body, c.body_length);
    let mut marks: [u64; 32] = [0; 32];
    let nested = body_names(content, c.body + 4, &mut marks)?;
    if c.sequences == 0 {
        return Ok(());
    }
    identifiers_differ(xs, content, &mut marks, nested, &entries[..c.used])
}
