//! A table of examples: statements of setup and acts, and what a catalog answers to them.
//!
//! Each line of the input has statements, with `;` between them. Those of the first line are declared before each of the others.
//! The answer to a line is that to its last statement; it is printed behind the line. A line that begins with `#` is printed as
//! it is. The gate runs the program over `stdin` and compares what it prints with `stdout`.
#![tactic(auto)]

mod answers;

use crate::answers::{answer, declared};
use std::io;
use strip_catalog::Catalog;

fn main(rt: HostRuntime) -> io::Result<()> {
    let mut before: Option<Catalog> = None;
    for line in rt.lines(rt.alloc()) {
        let line = line?;
        match &before {
            None => before = Some(declared(rt.alloc(), line.as_str())?),
            Some(_) if line.as_str().starts_with('#') => println!(rt; "{line}")?,
            Some(catalog) => {
                let answer = answer(rt.alloc(), catalog, line.as_str())?;
                println!(rt; "{line} -> {answer}")?;
            }
        }
    }
    Ok(())
}
