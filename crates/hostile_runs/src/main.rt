//! Every machine under a cloud that lies at every call: FIRST and COUNT name the clouds, and a word more has it tell why the machines stopped.
#![tactic(auto)]

mod ascending;
mod hostile_cloud;
mod liar;
mod looking;
mod machine;
mod objects;
mod runs;
mod tally;
mod witness;

use crate::runs::{bench, is_withstood};
use crate::tally::Tally;
use std::process::ExitCode;
use std::{env, io};
use words::number::number_of;

/// Which clouds are run, and whether it tells why machines stopped.
#[derive(Clone, Copy)]
struct Asked {
    first: u64,
    count: u64,
    tells: bool,
}

fn main(rt: HostRuntime) -> ExitCode {
    match all(&rt) {
        Ok(true) => ExitCode::from(0),
        Ok(false) | Err(_) => ExitCode::from(1),
    }
}

/// What the words ask for.
fn from_words(rt: &HostRuntime) -> io::Result<Option<Asked>> {
    let mut words = env::args(rt)?.skip(1);
    let (Some(first), Some(count)) = (words.next(), words.next()) else {
        return Ok(None);
    };
    let (Some(first), Some(count)) = (
        number_of(first.as_str().as_bytes()),
        number_of(count.as_str().as_bytes()),
    ) else {
        return Ok(None);
    };
    Ok(Some(Asked {
        first,
        count,
        tells: words.next().is_some(),
    }))
}

/// Whether every machine was right under each cloud.
fn all(rt: &HostRuntime) -> io::Result<bool> {
    let (Some(asked), Some(bench)) = (from_words(rt)?, bench(rt.alloc())) else {
        println!(rt; "hostile_runs FIRST COUNT [tally]")?;
        return Ok(false);
    };
    let mut tally = Tally::new();
    for offset in 0..asked.count {
        let number = asked.first.wrapping_add(offset);
        if !is_withstood(&bench, number, &mut tally) {
            println!(rt; "cloud {number}: NOT withstood")?;
            return Ok(false);
        }
    }
    let (first, count) = (asked.first, asked.count);
    println!(rt;
        "{count} clouds from {first} on: every machine ended within its bound, with a cause, and kept no lease"
    )?;
    if asked.tells {
        tally.print(rt)?;
    }
    Ok(true)
}
