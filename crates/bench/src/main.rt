//! `bench` runs a guard under the property in rule.bin over the bytes of its standard input, and prints each step: the
//! byte offered, what came of it, and the letters written or the refusal's number. The last line says whether the
//! guard rests. `bench FOLDER ..` does so in each folder, over its file `input`, under the folder's name; `-` stands for
//! the folder that it is run in and its standard input.
#![tactic(auto)]

use enforcer::enforce::{Limit, enforce};
use enforcer::offers::calls_of;
use files::none_if_missing;
use guard::runs::{Call, Guard, Reply, Run};
use letters::letter::{END, Letter};
use std::io::{ErrorKind, Read};
use std::{env, fs, io};

/// The most bytes that are offered.
const MOST_OFFERS: u64 = 4_096;

/// The numbers for the table.
const TABLE_NUMBERS: usize = 16_384;

/// The numbers for working.
const WORK_NUMBERS: usize = 4_096;

/// The length of the output of each call.
const OUTPUT_BYTES: usize = 256;

/// The bytes of a property file, none where it is missing.
fn rule_at(rt: &HostRuntime, path: &str) -> io::Result<Vec<u8>> {
    none_if_missing(fs::read(rt, path), rt.alloc())
}

/// The first bytes of an input.
fn offered_bytes(rt: &HostRuntime, input: impl Read + Drop) -> io::Result<Vec<u8>> {
    let mut bytes = Vec::new(rt.alloc());
    let _ = input.take(MOST_OFFERS).read_to_end(&mut bytes)?;
    Ok(bytes)
}

/// Prints what was written, and ends the line of print.
fn print_written(rt: &HostRuntime, letters: &[Letter]) -> io::Result<()> {
    for letter in letters {
        print!(rt; " {letter}")?;
    }
    println!(rt; "")
}

/// Prints what came of the offer of a byte.
fn print_reply(rt: &HostRuntime, byte: Letter, reply: Reply, written: &[Letter]) -> io::Result<()> {
    match reply {
        Reply::Begun | Reply::NoCall => Ok(()),
        Reply::Passed => {
            print!(rt; "{byte} pass")?;
            print_written(rt, written)
        }
        Reply::Dropped => println!(rt; "{byte} drop"),
        Reply::Closed(_) => {
            print!(rt; "{byte} close")?;
            print_written(rt, written)
        }
        Reply::Refused(refusal) => {
            let number = refusal.number();
            println!(rt; "{byte} refused {number}")
        }
    }
}

/// The byte that a call offers, none for a begin.
fn offered_by(call: Call) -> Option<Letter> {
    match call {
        Call::Begin => None,
        Call::Act(byte, _) => Some(byte),
        Call::Close(_) => Some(END),
    }
}

/// Prints each step of a run, and whether the guard rests after it.
fn print_run(rt: &HostRuntime, calls: &[Call], run: &Run) -> io::Result<()> {
    let mut line = run.line.as_slice();
    for (call, reply) in calls.iter().zip(run.replies.iter()) {
        if let Some(byte) = offered_by(*call) {
            let (written, rest) = line.split_at(reply.written().min(line.len()));
            print_reply(rt, byte, *reply, written)?;
            line = rest;
        }
    }
    match run.guard {
        Guard::AtRest(_) => println!(rt; "resting"),
        Guard::InCycle(_) => println!(rt; "open"),
    }
}

/// Runs a guard under a property over the bytes offered, and prints what it does.
fn bench(rt: &HostRuntime, file: &[u8], offers: &[Letter]) -> io::Result<()> {
    let calls = calls_of(rt.alloc(), offers, OUTPUT_BYTES)?;
    let mut table = vec![in rt.alloc(); 0; TABLE_NUMBERS]?;
    let mut work = vec![in rt.alloc(); 0; WORK_NUMBERS]?;
    match enforce(
        rt.alloc(),
        file,
        Limit::Standard,
        table.as_mut_slice(),
        work.as_mut_slice(),
        calls.as_slice(),
    ) {
        Ok(run) => print_run(rt, calls.as_slice(), &run),
        Err(fault) => match fault.number() {
            Some(number) => println!(rt; "rule refused {number}"),
            None => Err(io::Error::from(ErrorKind::OutOfMemory)),
        },
    }
}

/// Benches the property of the folder that the program is run in over its standard input.
fn bench_here(rt: &HostRuntime) -> io::Result<()> {
    let file = rule_at(rt, "rule.bin")?;
    let offers = offered_bytes(rt, rt.stdin())?;
    bench(rt, file.as_slice(), offers.as_slice())
}

/// The first bytes of a folder's input.
fn input_in(rt: &HostRuntime, folder: &str) -> io::Result<Vec<u8>> {
    let input = fs::open(rt, format!(in rt.alloc(); "{folder}/input")?.as_str())?;
    offered_bytes(rt, input)
}

/// Benches the property of a folder over its input; `-` stands for the folder that the program is run in.
fn bench_folder(rt: &HostRuntime, folder: &str) -> io::Result<()> {
    if folder == "-" {
        return bench_here(rt);
    }
    let file = rule_at(rt, format!(in rt.alloc(); "{folder}/rule.bin")?.as_str())?;
    let offers = input_in(rt, folder)?;
    bench(rt, file.as_slice(), offers.as_slice())
}

/// Prints a folder's name, and benches its property.
fn bench_named(rt: &HostRuntime, folder: &str) -> io::Result<()> {
    println!(rt; "{folder}:")?;
    bench_folder(rt, folder)
}

fn main(rt: HostRuntime) -> io::Result<()> {
    let folders: Vec<String> = env::args(&rt)?.skip(1).collect(rt.alloc())?;
    if folders.is_empty() {
        return bench_here(&rt);
    }
    for folder in folders.iter() {
        bench_named(&rt, folder.as_str())?;
    }
    Ok(())
}
