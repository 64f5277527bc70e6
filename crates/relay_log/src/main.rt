// Lists the messages that a file or standard input has back to back, as document 01, "The listing", says.
#![tactic(auto)]

ghost use Rattle.std.specs.Prelude.{◌≡◌, length};
ghost use Rattle.listing_lines.specs.Lines.{version, first_line, end_line};
ghost use Rattle.listing.specs.Next.{buffer_length};
ghost use Rattle.listing.specs.Run.{turn};
ghost use Rattle.listing.specs.Inner.{Near};
ghost use Rattle.relay_log.specs.Inner.{held, Lies, Held, Taken, Took};

use listing::turns::{start, turn};
use listing::{Run, Turn};
use listing_input::arguments::{Source, chosen_source};
use listing_input::{Window, fail};
use std::io::{Error, Read, Stdout};

// What the program does, for who asks.
const USAGE: &[u8] =
    b"usage: relay_log [FILE]\n\nLists the OP_MSG messages that FILE, or standard input, has back to back, up to the first\nthat is refused. Fields are parted by tabs:\n\n  msg  offset length requestID responseTo flags sequences elements\n  big  offset length            a message over 65,536 bytes, passed over unread\n  bad  offset number place      a refusal; the place is counted from the message\n  end  messages                 how many were read or passed over\n";

// The most turns of a run, which no input uses up: a proved loop has to end, and nothing says that the input does.
const TURNS: u64 = 0x8000_0000_0000;

// Where the program stands: the bytes at hand, whether it is done, and the run up to them.
#[derive(Clone, Copy)]
struct Progress {
    window: Window,
    done: bool,
    run: Run,
}

// Writes to standard output; where that fails, standard error says so.
fn print(out: Stdout, text: &[u8]) -> Result<(), Error> {
    out.write_all(text)
        .inspect_err(|error| fail(b"relay_log: standard output", *error))
}

// Prints the line of a turn, which it asks its caller for: no contract can say what was printed.
fn print_turn(out: Stdout, text: &[u8], run: Run, s: &[u8], ended: bool) -> Result<(), Error>
    requires { text.now ≡ (turn run ended s.now).line }
{
    print(out, text)
}

// The same of the first line, and of the last.
fn print_first(out: Stdout, text: &[u8]) -> Result<(), Error>
    requires { text.now ≡ first_line version }
{
    print(out, text)
}

fn print_end(out: Stdout, text: &[u8], messages: u64) -> Result<(), Error>
    requires { text.now ≡ end_line messages }
{
    print(out, text)
}

// Takes a turn over the bytes at hand, s, and prints its line.
fn show(out: Stdout, run: Run, s: &[u8], ended: bool) -> (Turn, Result<(), Error>)
    requires { Near run }
    ensures { Taken (turn run ended s.now) result.0 }
{
    let mut line = [0u8; 256];
    let t = turn(run, s, ended, &mut line);
    let n = t.line;
    let printed = print_turn(out, &line[..n], run, s, ended);
    (t, printed)
}

// Takes a turn, prints its line, and reads on where it asks for more. A line that cannot be printed is the last but `end`.
fn step<R: Read>(input: &mut R, out: Stdout, buf: &mut [u8], p: Progress) -> Progress
    requires { Held p × (buffer_length ≡ length buf.old) }
    ensures took { Took (turn p.run p.window.ended (held p buf.old)) p buf.old result buf.new }
    ensures lies { Lies result }
{
    let window = p.window;
    let (t, printed) = show(out, p.run, &buf[window.at..window.end], window.ended);
    let run = t.run;
    let done = printed.is_err() || run.done;
    let window = Window {
        at: window.at + t.used,
        ..window
    };
    if t.more {
        let window = window.filled(input, buf, b"relay_log: read");
        return Progress { window, done, run };
    }
    Progress { window, done, run }
}

// Lists what an input gives, and answers how many messages were read or passed over.
fn list<R: Read>(input: &mut R, out: Stdout, buf: &mut [u8]) -> u64
    requires { buffer_length ≡ length buf.old }
{
    let run = start();
    let mut p = Progress {
        window: Window {
            at: 0,
            end: 0,
            ended: false,
        },
        done: false,
        run,
    };
    for _ in 0..TURNS {
        p = step(input, out, buf, p);
        if p.done {
            break;
        }
    }
    p.run.messages
}

// The whole listing of what an input gives.
fn list_all<R: Read>(input: &mut R, out: Stdout) -> Result<(), Error> {
    let mut line = [0u8; 256];
    let n = relay::first_line(&mut line);
    print_first(out, &line[..n])?;
    let mut space = io::large_buffer();
    let messages = list(input, out, &mut space);
    let m = relay::end_line(&mut line, messages);
    print_end(out, &line[..m], messages)
}

// A line that could not be printed has been told of, and the program ends as ever.
fn main(rt: HostRuntime) {
    let _told = match chosen_source(rt, &mut io::buffer(), USAGE) {
        Some(Source::Input) => list_all(&mut rt.stdin(), rt.stdout()),
        Some(Source::File(mut file, _)) => list_all(&mut file, rt.stdout()),
        None => Ok(()),
    };
}
