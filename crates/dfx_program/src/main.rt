//! The program: its words, the machine's files, and its standard streams.
#![tactic(auto)]

mod files;
mod streams;

use crate::files::RealFiles;
use crate::streams::{StdErr, StdOut};
use dfx_top::{Finished, command_here};
use dfx_value::{NoMemory, Text};
use std::env;
use std::io::ErrorKind;
use std::process::ExitCode;

/// The status of want of memory.
const OUT_OF_MEMORY: u8 = 10;

/// The words after the program's name; none of them where one isn't UTF-8, so that they are refused.
fn words(rt: &HostRuntime) -> Result<Vec<Text>, NoMemory> {
    let mut words = Vec::new(rt.alloc());
    let args = match env::args(rt) {
        Ok(args) => args,
        Err(error) if error.kind() == ErrorKind::OutOfMemory => return Err(NoMemory),
        Err(_) => return Ok(words),
    };
    for word in args.skip(1) {
        words.push(Text::from_string(word))?;
    }
    Ok(words)
}

fn main(rt: HostRuntime) -> ExitCode {
    let Ok(words) = words(&rt) else {
        let _ = rt.eprintln("dfx: out of memory");
        return ExitCode::from(OUT_OF_MEMORY);
    };
    let Finished {
        status,
        files: _,
        sink: _,
        err: _,
        failure: _,
    } = command_here(
        rt.alloc(),
        &words,
        RealFiles::new(rt),
        StdOut::new(rt),
        StdErr::new(rt),
    );
    ExitCode::from(status)
}
