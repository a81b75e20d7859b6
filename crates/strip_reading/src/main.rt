//! A table of texts: each is a statement, or none, and what the parser answers to it.
//!
//! Each line of the input is the text of one statement. In it `{64 (}` stands for 64 times `(`, and `{255}` for the byte 255.
//! Behind the line is printed the canonical text of a copy of the statement, or that it is the text itself, or the fault. A line
//! that begins with `#` is printed as it is. The gate runs the program over `stdin` and compares what it prints with `stdout`.
#![tactic(auto)]

mod reading;

use crate::reading::answer;
use std::io;

fn main(rt: HostRuntime) -> io::Result<()> {
    for line in rt.lines(rt.alloc()) {
        let line = line?;
        if line.as_str().starts_with('#') {
            println!(rt; "{line}")?;
        } else {
            let answer = answer(rt.alloc(), line.as_str())?;
            println!(rt; "{line} -> {answer}")?;
        }
    }
    Ok(())
}
