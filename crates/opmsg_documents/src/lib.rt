// Documents back to back.
#![tactic(auto)]

ghost use Rattle.std.specs.Prelude.{◌≡◌, ℕ, ◌+◌, ◌^◌, ◌<◌, ◌≤◌, length};
ghost use Rattle.wire.specs.Walk.{walk};
ghost use Rattle.opmsg.specs.Sections.{next_document};
ghost use Rattle.opmsg_documents.specs.Inner.{told_run};

use refusal::Refusal;

// Documents back to back: how many there are, and the elements counted by now.
#[derive(Clone, Copy, Debug, PartialEq, Eq)]
pub struct Counted {
    pub documents: u32,
    pub elements: u32,
}

// Documents that fill s.
pub fn documents(s: &[u8], at: u32, count: u32) -> Result<Counted, Refusal>
    requires { at + length s.now < 2 ^ 31 }
    ensures { (turns : ℕ) → length s.now ≤ turns → told_run result ≡ walk next_document turns at s.now (record { documents = 0; elements = count }) }
{
    let mut i = 0;
    let mut documents = 0;
    let mut elements = count;
    // A turn passes what its document takes, so there is no range for a `for` to go over.
    while i < s.len() {
        let passed = bson::document(&s[i..], at + i as u32, elements)?;
        i += passed.size;
        documents += 1;
        elements = passed.count;
    }
    Ok(Counted {
        documents,
        elements,
    })
}
