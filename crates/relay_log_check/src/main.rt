// Reads a stored listing, of a file or standard input, and prints its version and its messages, or the refusal.
#![tactic(auto)]

ghost use Rattle.std.specs.Prelude.{◌≡◌, Ok, Err, length};
ghost use Rattle.listing_check.specs.Inner.{Tells};
ghost use Rattle.listing_check.specs.declared.Checked.TheVariants.{Done};
ghost use Rattle.relay_log_check.specs.Inner.{buffer_length, Held, Lies, Went, Further};

use listing_check::{Checked, Standing, check};
use listing_input::arguments::{Source, chosen_source};
use listing_input::{Window, fail};
use relay::{Listing, WrongLine};
use std::io::{Error, Read, Stdout};

// What the program does, for who asks.
const USAGE: &[u8] =
    b"usage: relay_log_check [FILE]\n\nReads a listing that relay_log wrote, of FILE or standard input, and prints one line. Fields\nare parted by tabs:\n\n  listing  version messages\n  bad      38 line             the first line that is bad or missing, from 1\n";

// The most turns of a run, which no input uses up: a proved loop has to end, and nothing says that the input does.
const TURNS: u64 = 0x8000_0000_0000;

// Where the program stands: the bytes at hand, whether it is done, and where the reader stands in the listing.
#[derive(Clone, Copy)]
struct Progress {
    window: Window,
    done: bool,
    standing: Standing,
}

// Writes a line of a word and two numbers.
fn write_line(out: Stdout, word: &[u8], a: u64, b: u64) -> Result<(), Error> {
    out.write_all(word)?;
    println!(out; "{a}\t{b}")
}

// The same; where that fails, standard error says so.
fn print_line(out: Stdout, word: &[u8], a: u64, b: u64) {
    if let Err(error) = write_line(out, word, a, b) {
        fail(b"relay_log_check: standard output", error);
    }
}

// Prints what the listing tells, which it asks its caller for: no contract can say what was printed.
fn print_listing(out: Stdout, l: Listing, at: Standing, s: &[u8], ended: bool)
    requires { Tells at s.now ended (Ok (Done l)) }
{
    print_line(out, b"listing\t", l.version as u64, l.messages);
}

// The same of a refusal.
fn print_wrong(out: Stdout, wrong: WrongLine, at: Standing, s: &[u8], ended: bool)
    requires { Tells at s.now ended (Err wrong) }
{
    print_line(out, b"bad\t", u64::from(wrong.number()), wrong.line);
}

// Reads a line, or prints the answer, or reads on where more bytes are wanted.
fn step<R: Read>(input: &mut R, out: Stdout, buf: &mut [u8], p: Progress) -> Progress
    requires { Held p × (buffer_length ≡ length buf.old) }
    ensures went { Went p buf.old result buf.new }
    ensures further { Lies result × Further p result }
{
    let window = p.window;
    let standing = p.standing;
    let ended = window.ended;
    match check(standing, &buf[window.at..window.end], ended) {
        Ok(Checked::On(next, used)) => Progress {
            window: Window {
                at: window.at + used,
                ..window
            },
            standing: next,
            ..p
        },
        Ok(Checked::More) => {
            let window = window.filled(input, buf, b"relay_log_check: read");
            Progress { window, ..p }
        }
        Ok(Checked::Done(l)) => {
            print_listing(out, l, standing, &buf[window.at..window.end], ended);
            Progress { done: true, ..p }
        }
        Err(wrong) => {
            print_wrong(out, wrong, standing, &buf[window.at..window.end], ended);
            Progress { done: true, ..p }
        }
    }
}

// Reads on until all is told.
fn read_all<R: Read>(input: &mut R, out: Stdout, buf: &mut [u8])
    requires { buffer_length ≡ length buf.old }
{
    let mut p = Progress {
        window: Window {
            at: 0,
            end: 0,
            ended: false,
        },
        done: false,
        standing: Standing::Start,
    };
    for _ in 0..TURNS {
        p = step(input, out, buf, p);
        if p.done {
            break;
        }
    }
}

// Reads the listing that an input gives.
fn read_from<R: Read>(input: &mut R, out: Stdout) {
    let mut space = io::large_buffer();
    read_all(input, out, &mut space);
}

fn main(rt: HostRuntime) {
    match chosen_source(rt, &mut io::buffer(), USAGE) {
        Some(Source::Input) => read_from(&mut rt.stdin(), rt.stdout()),
        Some(Source::File(mut file, _)) => read_from(&mut file, rt.stdout()),
        None => {}
    }
}
