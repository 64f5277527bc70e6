// A run over a stream: the pure part of each turn.
ghost use Rattle.std.specs.Prelude.{◌≡◌, length};
ghost use Rattle.listing.specs.Run.{start, behind, passing, over, stepped, passed, turn};
ghost use Rattle.listing.specs.Inner.{Near, Takes};

use crate::stream::next;
use crate::{Run, Step, Turn};
use listing_lines::{bad_line, big_line, message_line};

// Nothing is behind the run.
pub fn start() -> Run
    ensures { result ≡ start }
{
    Run {
        offset: 0,
        messages: 0,
        length: 0,
        left: 0,
        done: false,
    }
}

// The run with a message of n bytes behind it.
fn behind(run: Run, n: u32) -> Run
    requires { Near run }
    ensures { result ≡ behind n run }
{
    Run {
        offset: run.offset + n as u64,
        messages: run.messages + 1,
        length: 0,
        left: 0,
        done: false,
    }
}

// The run inside a message of n bytes that is passed over, of which so many are still to come.
fn passing(run: Run, n: u32, left: u32) -> Run
    ensures { result ≡ passing n left run }
{
    Run {
        length: n,
        left,
        done: false,
        ..run
    }
}

// The run that is over.
fn over(run: Run) -> Run
    ensures { result ≡ over run }
{
    Run { done: true, ..run }
}

// What a turn makes of what comes next: a message that is passed over has its line when it has passed.
fn stepped(run: Run, step: Step, line: &mut [u8; 256]) -> Turn
    requires { Near run }
    ensures { Takes (stepped run step) line.old line.new result }
{
    match step {
        Step::Message(m) => {
            let length = m.length;
            let n = message_line(line, run.offset, m);
            Turn {
                run: behind(run, length),
                used: length as usize,
                line: n,
                more: false,
            }
        }
        Step::Big { length } => Turn {
            run: passing(run, length, length),
            used: 0,
            line: 0,
            more: false,
        },
        Step::Bad { number, place } => {
            let n = bad_line(line, run.offset, number, place);
            Turn {
                run: over(run),
                used: 0,
                line: n,
                more: false,
            }
        }
        Step::More => Turn {
            run,
            used: 0,
            line: 0,
            more: true,
        },
        Step::End => Turn {
            run: over(run),
            used: 0,
            line: 0,
            more: false,
        },
    }
}

// The same inside a message that is passed over, with n bytes at hand: it has passed, or the stream ends inside it, or all bytes at hand
// are its own.
fn passed(run: Run, ended: bool, n: usize, line: &mut [u8; 256]) -> Turn
    requires { Near run }
    ensures { Takes (passed run ended n) line.old line.new result }
{
    let left = run.left as usize;
    if left <= n {
        return Turn {
            run: behind(run, run.length),
            used: left,
            line: big_line(line, run.offset, run.length),
            more: false,
        };
    }
    if ended {
        return Turn {
            run: over(run),
            used: n,
            line: bad_line(line, run.offset, 3, 0),
            more: false,
        };
    }
    Turn {
        run: passing(run, run.length, (left - n) as u32),
        used: n,
        line: 0,
        more: true,
    }
}

// A turn: what it makes of the bytes at hand, s, behind which more may come unless the stream has ended. A line, if there is one, is
// written to the start of `line`.
pub fn turn(run: Run, s: &[u8], ended: bool, line: &mut [u8; 256]) -> Turn
    requires { Near run }
    ensures { Takes (turn run ended s.now) line.old line.new result }
{
    if run.left == 0 {
        return stepped(run, next(s, ended), line);
    }
    passed(run, ended, s.len(), line)
}
