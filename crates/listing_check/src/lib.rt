// A stored listing that comes in pieces, read line by line.
#![tactic(auto)]

ghost use Rattle.std.specs.Prelude.{◌≡◌, ◌+◌, ◌^◌, ◌<◌, ◌≤◌, length};
ghost use Rattle.listing_fields.specs.Numbers.{until_newline};
ghost use Rattle.listing_check.specs.declared.Standing.TheVariants.{Start, Inside};
ghost use Rattle.listing_check.specs.Inner.{counted, Tells};

use listing_fields::split::NEWLINE;
use listing_stored::rules::line;
use listing_stored::{FIRST_LINE, Limits, Listing, Place, WrongLine, answer, start, version};

// Where a reader stands: before the first line, or in a listing of a version behind so many lines. The start is a place as well, so it is
// no None.
#[derive(Clone, Copy)]
pub enum Standing {
    Start,
    Inside(Limits, Place),
}

// What comes of the bytes at hand, where no line is wrong: some of them are read, more are wanted, or all is told.
#[derive(Clone, Copy)]
pub enum Checked {
    On(Standing, usize),
    More,
    Done(Listing),
}

// No line is as long: more bytes without a newline are a wrong line.
const LONG: usize = 256;

// Reads the first line.
fn check_first(s: &[u8], ended: bool) -> Result<Checked, WrongLine>
    ensures { Tells Start s.now ended result }
{
    let wrong = WrongLine { line: 1 };
    if FIRST_LINE <= s.len() {
        let v = version(s).ok_or(wrong)?;
        Ok(Checked::On(Standing::Inside(v, start()), FIRST_LINE))
    } else if ended {
        Err(wrong)
    } else {
        Ok(Checked::More)
    }
}

// Bytes behind the first line that have no newline among them.
fn check_rest(v: Limits, p: Place, s: &[u8], ended: bool) -> Result<Checked, WrongLine>
    requires { length s.now ≤ until_newline s.now }
    ensures { Tells (Inside v p) s.now ended result }
{
    let wrong = WrongLine { line: p.line };
    if LONG <= s.len() {
        return Err(wrong);
    }
    if !ended {
        return Ok(Checked::More);
    }
    if s.is_empty() {
        return Ok(Checked::Done(answer(v, p)?));
    }
    Err(wrong)
}

// Reads a line behind the first.
fn check_line(v: Limits, p: Place, s: &[u8], ended: bool) -> Result<Checked, WrongLine>
    requires { p.line + p.messages < 2 ^ 63 }
    ensures { Tells (Inside v p) s.now ended result }
{
    let Some(n) = s.iter().position(|x| *x == NEWLINE) else {
        return check_rest(v, p, s, ended);
    };
    let q = line(v, p, &s[..n]).ok_or(WrongLine { line: p.line })?;
    Ok(Checked::On(Standing::Inside(v, q), n + 1))
}

// Reads a line, the first or a later one, of the bytes at hand, behind which others may come unless the listing has ended.
pub fn check(at: Standing, s: &[u8], ended: bool) -> Result<Checked, WrongLine>
    requires { counted at < 2 ^ 63 }
    ensures { Tells at s.now ended result }
{
    match at {
        Standing::Start => check_first(s, ended),
        Standing::Inside(v, p) => check_line(v, p, s, ended),
    }
}
