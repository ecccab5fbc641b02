//! `timing TIMES FILE ..` makes the table of each property file so many times, and prints how many rows it has or which
//! refusal it gets; it is timed by hand.
#![tactic(auto)]

use letters::alphabet::Alphabet;
use std::{env, fs, io};
use synthesis::fault::SynthesisFault;
use synthesis::synthesize::synthesize;

/// Numbers that suffice for each table: 1,024 rows of 32 cells, owed, span and lead.
const TABLE_NUMBERS: usize = 35_840;

/// Numbers that suffice for working.
const WORK_NUMBERS: usize = 4_096;

/// Makes the table of a file so many times; answers the last time's rows.
fn make_often(
    file: &[u8],
    times: usize,
    table: &mut [u16],
    work: &mut [u16],
) -> Result<usize, SynthesisFault> {
    let mut rows = 0;
    for _ in 0..times {
        let mut alphabet = Alphabet::new();
        rows = synthesize(file, &mut alphabet, table, work)?;
    }
    Ok(rows)
}

/// Makes the table of a file so many times, and prints what it came to.
fn time_file(rt: &HostRuntime, path: &str, times: usize) -> io::Result<()> {
    let file = fs::read(rt, path)?;
    let mut table = vec![in rt.alloc(); 0; TABLE_NUMBERS]?;
    let mut work = vec![in rt.alloc(); 0; WORK_NUMBERS]?;
    match make_often(
        file.as_slice(),
        times,
        table.as_mut_slice(),
        work.as_mut_slice(),
    ) {
        Ok(rows) => println!(rt; "{path}: {rows} rows"),
        Err(fault) => {
            let number = fault.report().number;
            println!(rt; "{path}: refused {number}")
        }
    }
}

fn main(rt: HostRuntime) -> io::Result<()> {
    let mut args = env::args(&rt)?;
    let _program = args.next();
    let Some(times) = args.next() else {
        return Ok(());
    };
    let times = times.as_str().parse::<usize>().unwrap_or(1);
    for path in args {
        time_file(&rt, path.as_str(), times)?;
    }
    Ok(())
}
