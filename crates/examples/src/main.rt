// Runs the specification's worked examples and stored vectors on the compiled code, and prints what came of them.
#![tactic(auto)]

mod answers;
mod calls;
mod filed;
mod heads;
mod patrolled;
mod reading;
mod rows;
mod vectors;
mod visited;
mod written;

use std::io;

// Whether each worked example holds, from the first on.
fn examples() -> [bool; 15] {
    [
        written::example_1(),
        written::example_2(),
        written::example_3(),
        written::example_4(),
        visited::example_5(),
        visited::example_6(),
        visited::example_7(),
        visited::example_8(),
        visited::example_9(),
        visited::example_10(),
        visited::example_11(),
        written::example_12(),
        patrolled::example_13(),
        patrolled::example_14(),
        patrolled::example_15(),
    ]
}

fn main(rt: HostRuntime) -> io::Result<()> {
    for (number, holds) in (1u64..).zip(examples()) {
        let word = if holds { "holds" } else { "FAILS" };
        println!(rt; "example {number} {word}")?;
    }
    // Whether a dead chip is lost in every lane.
    let word = if visited::dead_chip() {
        "lost"
    } else {
        "NOT LOST"
    };
    println!(rt; "dead chip {word}")?;
    let tally = vectors::run_all(&mut rt.reader())?;
    println!(rt; "vectors {} agree {}", tally.vectors, tally.agree)
}
