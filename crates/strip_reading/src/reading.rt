//! What the parser answers to a text.
use std::alloc::{AllocError, Global};
use std::str;
use strip_ast::{ParseFail, Statement};
use strip_parse::parse;
use strip_value::Duplicate;

/// Writes what stands between two braces: a part so many times, or a byte by its number.
fn push_part(text: &mut Vec<u8>, part: &str) -> Result<(), AllocError> {
    match part.split_once(' ') {
        Some((count, repeated)) => {
            for _ in 0..count.parse::<u32>().unwrap_or(0) {
                text.extend_from_slice(repeated.as_bytes())?;
            }
        }
        None => text.push(part.parse::<u8>().unwrap_or(b'?'))?,
    }
    Ok(())
}

/// The text of a line, with what its braces stand for.
fn widened(alloc: Global, line: &str) -> Result<Vec<u8>, AllocError> {
    let mut text = Vec::new(alloc);
    for piece in line.split('{') {
        match piece.split_once('}') {
            Some((part, rest)) => {
                push_part(&mut text, part)?;
                text.extend_from_slice(rest.as_bytes())?;
            }
            None => text.extend_from_slice(piece.as_bytes())?,
        }
    }
    Ok(text)
}

/// The canonical text of a copy of the statement, or that this is how it stands.
fn canonical(alloc: Global, statement: &Statement, text: &[u8]) -> Result<String, AllocError> {
    let printed = statement.copy(alloc)?.print(alloc)?.into_vec();
    if printed.as_slice() == text {
        return String::from_str(alloc, "as it stands");
    }
    String::from_str(alloc, str::from_utf8(printed.as_slice()).unwrap_or("?"))
}

/// What is printed behind a line.
pub(crate) fn answer(alloc: Global, line: &str) -> Result<String, AllocError> {
    let text = widened(alloc, line)?;
    match parse(alloc, text.as_slice()) {
        Ok(statement) => canonical(alloc, &statement, text.as_slice()),
        Err(ParseFail::Fault(fault)) => {
            let told = fault.text(alloc)?;
            String::from_str(alloc, str::from_utf8(told.as_slice()).unwrap_or("?"))
        }
        Err(ParseFail::Memory) => Err(AllocError),
    }
}
