//! `vector_bench EXPRESSION WAY`: on how many of 1,007,616 rows a test is true, row by row or by columns.
#![tactic(auto)]

mod count;
mod expressions;
mod table;

use std::process::ExitCode;
use std::{env, io};

fn main(rt: HostRuntime) -> io::Result<ExitCode> {
    let mut words = env::args(&rt)?.skip(1);
    let (Some(expression), Some(way)) = (words.next(), words.next()) else {
        eprintln!(rt; "vector_bench sum|product|case rows|columns")?;
        return Ok(ExitCode::FAILURE);
    };
    match count::kept(rt.alloc(), expression.as_str(), way.as_str()) {
        Ok(kept) => {
            println!(rt; "{kept}")?;
            Ok(ExitCode::SUCCESS)
        }
        Err(_) => {
            eprintln!(rt; "a fault, or no memory")?;
            Ok(ExitCode::FAILURE)
        }
    }
}
