//! Standard output and standard error, which tell nothing of what they took.

ghost use Rattle.std.specs.Prelude.{◌≡◌, ◌≤◌, ◌<◌, length, None, Ok, IfOk, OnErr};
ghost use Rattle.dfx_outside.specs.Causes.{Rose};

use dfx_outside::{OutsideRefused, Sink};
use std::io::{self, ErrorKind, Write};

/// Standard output.
#[derive(Drop)]
pub struct StdOut {
    rt: HostRuntime,
    faults: u64,
}

impl StdOut {
    pub fn new(rt: HostRuntime) -> StdOut {
        StdOut { rt, faults: 0 }
    }
}

/// Standard error.
#[derive(Drop)]
pub struct StdErr {
    rt: HostRuntime,
    faults: u64,
}

impl StdErr {
    pub fn new(rt: HostRuntime) -> StdErr {
        StdErr { rt, faults: 0 }
    }
}

/// Writes a piece, and again where a signal interrupts that.
fn write_again<W: Write>(stream: &mut W, piece: &[u8]) -> io::Result<usize>
    ensures within { IfOk result (λ n. n ≤ length piece.now) }
{
    for _ in 0..u64::MAX {
        match stream.write(piece) {
            Err(error) if error.kind() == ErrorKind::Interrupted => {}
            written => return written,
        }
    }
    Err(io::Error::from(ErrorKind::Interrupted))
}

/// What a write took; a write that took nothing of a piece that isn't empty is a failure, which is counted.
fn taken(
    written: io::Result<usize>,
    faults: &mut u64,
    length: usize,
) -> Result<usize, OutsideRefused>
    ensures count { IfOk result (λ n. written ≡ Ok n) }
    ensures some { 0 < length → IfOk result (λ n. 0 < n) }
    ensures later { faults.old ≤ faults.new }
    ensures failed { OnErr result (Rose faults.old faults.new) }
{
    match written {
        Ok(count) if count > 0 || length == 0 => Ok(count),
        _ => {
            *faults = faults.saturating_add(1);
            Err(OutsideRefused::Failed)
        }
    }
}

impl Sink for StdOut {
    ghost told = { λ _. None };

    ghost faults = { λ s. s.faults };

    fn write(&mut self, piece: &[u8]) -> Result<usize, OutsideRefused> {
        let written = write_again(&mut self.rt.stdout(), piece);
        taken(written, &mut self.faults, piece.len())
    }
}

impl Sink for StdErr {
    ghost told = { λ _. None };

    ghost faults = { λ s. s.faults };

    fn write(&mut self, piece: &[u8]) -> Result<usize, OutsideRefused> {
        let written = write_again(&mut self.rt.stderr(), piece);
        taken(written, &mut self.faults, piece.len())
    }
}
