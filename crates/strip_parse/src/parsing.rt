ghost use Rattle.std.specs.Prelude.{◌≡◌, IfOk};
ghost use Rattle.strip_parse.specs.Parsed.{IsParsed, IsWhole, parsed, reading, answer_of, fault_of, halt_at};
ghost use Rattle.strip_ast.specs.Syntax.{statement};
ghost use Rattle.strip_parse.specs.Reading.{part, at_end};
ghost use Rattle.strip_parse.specs.Printing.{IsTextOf};

use crate::cursor::Cursor;
use crate::statements::take_statement;
use crate::stops::Stop;
use std::alloc::Global;
use strip_ast::{ParseError, ParseFail, Placed, Statement, Why, tokens};

/// The fault at the cursor; where no token is left, the statement isn't complete.
fn fault(cursor: &Cursor, why: Why, len: usize) -> ParseError
    ensures { result ≡ fault_of len (halt_at why cursor.now) }
{
    match cursor.place() {
        Some(at) => ParseError { at, why },
        None => ParseError {
            at: len as u64,
            why: Why::Ended,
        },
    }
}

/// A statement, behind which no token is left.
fn take_all(alloc: Global, cursor: &mut Cursor) -> Result<Statement, Stop>
    ensures { IsWhole (at_end (part statement cursor.old)) result cursor.new }
{
    match take_statement(alloc, cursor) {
        Ok(statement) => {
            if cursor.is_at_end() {
                Ok(statement)
            } else {
                Err(Stop::Unexpected)
            }
        }
        Err(stop) => Err(stop),
    }
}

#[tactic(auto, unfolding(crate::specs::Parsed::reading))]
fn parse_tokens(alloc: Global, tokens: &[Placed], len: usize) -> Result<Statement, ParseFail>
    ensures { IsParsed (answer_of len (reading tokens.now)) result }
{
    let mut cursor = Cursor::new(tokens);
    match take_all(alloc, &mut cursor) {
        Ok(statement) => Ok(statement),
        Err(Stop::Unexpected) => Err(ParseFail::Fault(fault(&cursor, Why::Unexpected, len))),
        Err(Stop::TooDeep) => Err(ParseFail::Fault(fault(&cursor, Why::TooDeep, len))),
        Err(Stop::TooLong) => Err(ParseFail::Fault(fault(&cursor, Why::TooLong, len))),
        Err(Stop::Memory) => Err(ParseFail::Memory),
    }
}

/// The tree of a statement of the grammar, or the one fault of the bytes. First all tokens are cut; then
/// they are read from the left.
///
/// - `exact`: the answer is what `parsed` says of the bytes.
/// - `grammar`: where a tree is answered, the bytes are a statement of the grammar with this tree.
#[tactic(auto, unfolding(crate::specs::Parsed::parsed))]
pub fn parse(alloc: Global, bytes: &[u8]) -> Result<Statement, ParseFail>
    ensures exact { IsParsed (parsed bytes.now) result }
    ensures grammar { IfOk result (λ s. IsTextOf bytes.now s) }
{
    match tokens(alloc, bytes) {
        Ok(found) => parse_tokens(alloc, found.as_slice(), bytes.len()),
        Err(fail) => Err(fail),
    }
}
