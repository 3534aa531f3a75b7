//! `turn_bench WORKERS TURNS`: so many workers take so many turns at one cell, and the number of turns is printed.
#![tactic(auto)]

mod tally;

use std::process::ExitCode;
use std::{env, io};

fn main(rt: HostRuntime) -> io::Result<ExitCode> {
    let mut words = env::args(&rt)?.skip(1);
    let workers = words
        .next()
        .and_then(|word| word.as_str().parse::<u32>().ok());
    let turns = words
        .next()
        .and_then(|word| word.as_str().parse::<u64>().ok());
    let (Some(workers), Some(turns)) = (workers, turns) else {
        eprintln!(rt; "turn_bench WORKERS TURNS")?;
        return Ok(ExitCode::FAILURE);
    };
    match tally::count_turns(&rt, rt.alloc(), workers.max(1), turns) {
        Some(taken) => {
            println!(rt; "{taken}")?;
            Ok(ExitCode::SUCCESS)
        }
        None => {
            eprintln!(rt; "no memory")?;
            Ok(ExitCode::FAILURE)
        }
    }
}
