//! The program: makes the real files and streams and calls the command.
#![tactic(auto)]

use cw_io::Sink;
use cw_outside::{Files, Stream};
use cw_top::{Status, coral66};
use std::io::ErrorKind;
use std::process::ExitCode;
use std::{env, io};

// The words after the program's name.
fn words_of(rt: &HostRuntime) -> io::Result<Vec<String>> {
    Ok(env::args(rt)?.skip(1).collect(rt.alloc())?)
}

fn main(rt: HostRuntime) -> ExitCode {
    let mut files = Files::new(&rt);
    let mut input = Stream::new(rt.stdin());
    let mut out = Stream::new(rt.stdout());
    let mut say = Stream::new(rt.stderr());
    let words = match words_of(&rt) {
        Ok(words) => words,
        Err(error) if error.kind() == ErrorKind::OutOfMemory => {
            let _ = say.write(b"no memory\n");
            return ExitCode::from(Status::NoMemory.code());
        }
        // A word that is no text makes the words none of the command.
        Err(_) => Vec::new(rt.alloc()),
    };
    let status = coral66(
        rt.alloc(),
        words.as_slice(),
        &mut files,
        &mut input,
        &mut out,
        &mut say,
    );
    ExitCode::from(status.code())
}
