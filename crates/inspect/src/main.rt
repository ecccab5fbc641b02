//! `inspect [FILE ..]` prints a line for each record of a property file (rule.bin where none is named; a missing
//! file is an empty one), its counts, and of each node its size and whether it closes; or the records before the
//! first fault, and the refusal. Several files are headed by their names.
#![tactic(auto)]

use files::none_if_missing;
use letters::alphabet::Alphabet;
use letters::letter::{Kind, Letter, read};
use letters::refusal::Report;
use property::check::read_property;
use property::fault::PropertyFault;
use property::place::Nodes;
use property::sizes::MOST_SIZE;
use records::body::{branch_at, branch_count, number};
use records::reader::Reader;
use records::record::Record;
use std::{env, fs, io};

/// Prints a letter by its kind and number, and its byte.
fn print_letter(rt: &HostRuntime, byte: Letter) -> io::Result<()> {
    match read(byte) {
        Some((kind @ (Kind::Tick | Kind::End), _)) => print!(rt; "{kind} ({byte})"),
        Some((kind, number)) => print!(rt; "{kind} {number} ({byte})"),
        None => print!(rt; "no letter ({byte})"),
    }
}

/// Prints the branches of a Choice, as the letter and the node that follows it.
fn print_branches(rt: &HostRuntime, body: &[u8]) -> io::Result<()> {
    let branches = (0..branch_count(body)).filter_map(|index| branch_at(body, index));
    for (n, branch) in branches.enumerate() {
        print!(rt; "{}", if n == 0 { ": " } else { ", " })?;
        print_letter(rt, branch.letter)?;
        let node = branch.node;
        print!(rt; " -> {node}")?;
    }
    println!(rt; "")
}

/// Prints the one node that a body names, or the two.
fn print_nodes(rt: &HostRuntime, body: &[u8]) -> io::Result<()> {
    match (number(body, 0), number(body, 2)) {
        (Some(first), Some(second)) => println!(rt; ": {first}, {second}"),
        (Some(only), None) => println!(rt; ": {only}"),
        _ => println!(rt; ""),
    }
}

/// Prints a node: its offset, kind and number, and what it names.
fn print_node(rt: &HostRuntime, at: usize, record: Record, node: usize) -> io::Result<()> {
    if let Record::Nothing(_) = record {
        // One write, since a node of this kind names nothing.
        return println!(rt; "{at} {record} node {node}");
    }
    print!(rt; "{at} {record} node {node}")?;
    match record {
        Record::Choice(body) => print_branches(rt, body),
        _ => print_nodes(rt, record.body()),
    }
}

/// Prints a declared letter.
fn print_declared(rt: &HostRuntime, at: usize, body: &[u8]) -> io::Result<()> {
    print!(rt; "{at} Letter ")?;
    if let Some(byte) = body.first() {
        print_letter(rt, *byte)?;
    }
    println!(rt; "")
}

/// Prints a refusal with its reason.
fn print_refusal(rt: &HostRuntime, fault: PropertyFault) -> io::Result<()> {
    let Report { number, offset, .. } = fault.report();
    println!(rt; "refused {number} at {offset}: {fault}")
}

/// Prints the records that begin before an offset, and the counts where that is the end of the file.
fn list(rt: &HostRuntime, file: &[u8], stop: usize) -> io::Result<()> {
    let Ok(mut reader) = Reader::open(file) else {
        return Ok(());
    };
    let mut letters = 0usize;
    let mut nodes = 0;
    while let Ok(Some((record, at))) = reader.next() {
        if at >= stop {
            return Ok(());
        }
        if let Record::Letter(body) = record {
            print_declared(rt, at, body)?;
            letters += 1;
        } else {
            print_node(rt, at, record, nodes)?;
            nodes += 1;
        }
    }
    let bytes = file.len();
    if stop < bytes {
        return Ok(());
    }
    println!(rt; "{bytes} bytes, {letters} letters, {nodes} nodes")
}

/// Prints of each node its size, and whether it closes; the last node is the property.
fn print_sizes(rt: &HostRuntime, place: &Nodes) -> io::Result<()> {
    for (n, (size, closes)) in place.sizes().iter().zip(place.closing()).enumerate() {
        print!(rt; "node {n}: size ")?;
        if *size > MOST_SIZE {
            print!(rt; "over {MOST_SIZE}")?;
        } else {
            print!(rt; "{size}")?;
        }
        println!(rt; "{}", if *closes { ", closes" } else { "" })?;
    }
    let property = place.nodes().len().saturating_sub(1);
    println!(rt; "the property is node {property}")
}

/// Lists a file and what its check finds.
fn show(rt: &HostRuntime, file: &[u8]) -> io::Result<()> {
    let mut alphabet = Alphabet::new();
    let mut place = Nodes::new();
    match read_property(file, &mut alphabet, &mut place) {
        Ok(()) => {
            list(rt, file, file.len())?;
            print_sizes(rt, &place)
        }
        Err(fault) => {
            list(rt, file, fault.report().offset)?;
            print_refusal(rt, fault)
        }
    }
}

/// Lists the file at a path.
fn inspect(rt: &HostRuntime, path: &str) -> io::Result<()> {
    let file = none_if_missing(fs::read(rt, path), rt.alloc())?;
    show(rt, file.as_slice())
}

/// Lists the file at a path under its name.
fn inspect_named(rt: &HostRuntime, path: &str) -> io::Result<()> {
    println!(rt; "{path}:")?;
    inspect(rt, path)
}

fn main(rt: HostRuntime) -> io::Result<()> {
    let paths: Vec<String> = env::args(&rt)?.skip(1).collect(rt.alloc())?;
    match paths.as_slice() {
        [] => inspect(&rt, "rule.bin"),
        [path] => inspect(&rt, path.as_str()),
        several => {
            for path in several {
                inspect_named(&rt, path.as_str())?;
            }
            Ok(())
        }
    }
}
