// The arguments of a program that reads one input.
ghost use Rattle.std.specs.Prelude.{OnOk};
ghost use Rattle.std.specs.Str.{IsUtf8};
ghost use Rattle.listing_input.specs.Arguments.{Named};

use crate::fail;
use std::env::FillError;
use std::fs::File;
use std::io::{Error, ErrorKind};
use std::rt::Env;

// The descriptors of standard output and standard error.
const STDOUT: i32 = 1;

const STDERR: i32 = 2;

// What a program reads: standard input, or a file whose name has so many bytes.
#[derive(Drop)]
pub enum Source {
    Input,
    File(File, usize),
}

// The program was given so many arguments behind its name, or more.
fn is_given(rt: HostRuntime, i: usize) -> bool {
    !matches!(rt.arg(i, &mut [0u8; 1]), Err(FillError::NotPresent))
}

// Opens a file to read it. Paths are UTF-8, so no other name is that of a file.
fn open(rt: HostRuntime, name: &[u8]) -> Result<File, Error>
    ensures { OnOk result (IsUtf8 name.now) }
{
    match str::from_utf8(name) {
        Ok(path) => File::open(&rt, path),
        Err(_) => Err(Error::from(ErrorKind::InvalidFilename)),
    }
}

// The source by the arguments: standard input where there are none, and the file that the only one names, whose name is left in `name`. An option,
// of which the only one is --help, prints how the program is used, and so do more arguments, to standard error; a file that cannot be opened
// is told there too.
pub fn chosen_source(rt: HostRuntime, name: &mut [u8], usage: &[u8]) -> Option<Source>
    ensures { Named name.new result }
{
    if !is_given(rt, 1) {
        return Some(Source::Input);
    }
    if is_given(rt, 2) {
        io::write_all(STDERR, usage);
        return None;
    }
    let n = rt.arg(1, name).unwrap_or(0);
    let word = &name[..n];
    if word.first() == Some(&b'-') {
        io::write_all(STDOUT, usage);
        return None;
    }
    match open(rt, word) {
        Ok(file) => Some(Source::File(file, n)),
        Err(error) => {
            fail(word, error);
            None
        }
    }
}
