// Reads an image file from standard input and prints its report.
#![tactic(auto)]

use std::io;

fn main(rt: HostRuntime) -> io::Result<()> {
    desk::inspect(&mut rt.reader(), &mut io::writer(&rt))
}
