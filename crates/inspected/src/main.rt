// Prints, of each file of data/, its name and what `inspect` prints of it.
#![tactic(auto)]

use std::fs::File;
use std::io;
use std::rt::Files;

// Refused for one reason.
const REFUSED: [&str; 19] = [
    "long",
    "longest",
    "empty",
    "short",
    "header-only",
    "version-0",
    "version-3",
    "field-below",
    "field-above",
    "field-swapped",
    "shape-0",
    "shape-3",
    "interleave-0",
    "interleave-17",
    "groups-0",
    "blocks-4097",
    "blocks-4096",
    "word-missing",
    "byte-more",
];

// Refused for the first of two reasons.
const TWICE_REFUSED: [&str; 5] = [
    "version-and-field",
    "field-and-shape",
    "shape-and-interleave",
    "interleave-and-groups",
    "groups-and-body",
];

const ACCEPTED: [&str; 13] = [
    "sample",
    "shape-1",
    "shape-1-interleaved",
    "shape-2",
    "shape-2-interleaved",
    "kinds-of-lost",
    "most-blocks",
    "dead.img",
    "version-1.img",
    "version-1-interleaved",
    "version-1-kinds",
    "burst.img",
    "burst-more.img",
];

// Of a file that cannot be opened the reason goes to standard error, and no report is printed.
fn show(rt: &(impl Files + Print + Eprint), name: &str) -> io::Result<()> {
    println!(rt; "{name}:")?;
    match File::open(rt, name) {
        Ok(mut input) => desk::inspect(&mut input, &mut io::writer(rt)),
        Err(error) => eprintln!(rt; "{name}: {error}"),
    }
}

fn main(rt: HostRuntime) -> io::Result<()> {
    for name in REFUSED.iter().chain(&TWICE_REFUSED).chain(&ACCEPTED) {
        show(&rt, name)?;
    }
    Ok(())
}
