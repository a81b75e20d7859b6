ghost use Rattle.std.specs.Prelude.{◌≡◌, ◌++◌, [], OnOk, IfOk, List};
ghost use Rattle.std.specs.Fmt.{decimal, signed_decimal};
ghost use Rattle.strip_value.specs.Print.{doubled, quoted};
ghost use Rattle.strip_ast.specs.Marks.{same_mark};
ghost use Rattle.strip_ast.specs.Pieces.{mark as mark_piece, name as name_piece, number as number_piece, whole as whole_piece, text as text_piece, unwritten, word_after, piece_after, joins_left as left_joins, joins_right as right_joins, is_total as totals, is_apart as apart_of, blank_if};

use crate::marks::Mark;
use itoa::Buffer;
use std::alloc::{AllocError, Global};
use std::marker::Model;
use strip_value::{Name, Text};

/// The canonical text of a statement while it is written.
#[derive(Drop)]
pub(crate) struct Printer {
    bytes: Vec<u8>,
    /// Whether a blank may follow.
    apart: bool,
    /// Whether the last piece is `sum` or `count`.
    total: bool,
}

impl Model for Printer {
    ghost use Rattle.strip_ast.specs.Pieces.{Written};

    ghost Value = { Written };

    ghost view = { λ p. record { bytes = p.bytes.items; apart = p.apart; total = p.total } };
}

fn joins_left(mark: Mark) -> bool
    ensures { result ≡ left_joins mark }
{
    mark.is(Mark::Close) || mark.is(Mark::Comma) || mark.is(Mark::Dot)
}

fn joins_right(mark: Mark) -> bool
    ensures { result ≡ right_joins mark }
{
    mark.is(Mark::Open) || mark.is(Mark::Dot)
}

fn is_total(mark: Mark) -> bool
    ensures { result ≡ totals mark }
{
    mark.is(Mark::Sum) || mark.is(Mark::Count)
}

fn push_doubled(bytes: &[u8], into: &mut Vec<u8>) -> Result<(), AllocError>
    ensures { OnOk result (into.new.items ≡ into.old.items ++ doubled bytes.now) }
{
    for byte in bytes {
        if *byte == b'\'' {
            into.push(b'\'')?;
        }
        into.push(*byte)?;
    }
    Ok(())
}

fn quoted_text(alloc: Global, bytes: &[u8]) -> Result<Vec<u8>, AllocError>
    ensures { IfOk result (λ made. made.items ≡ quoted bytes.now) }
{
    let mut made = Vec::from_slice(alloc, b"'")?;
    push_doubled(bytes, &mut made)?;
    made.push(b'\'')?;
    Ok(made)
}

fn push_blank(into: &mut Vec<u8>, apart: bool) -> Result<(), AllocError>
    ensures { OnOk result (into.new.items ≡ into.old.items ++ blank_if apart) }
{
    if apart {
        into.push(b' ')?;
    }
    Ok(())
}

impl Printer {
    pub(crate) fn new(alloc: Global) -> Printer
        ensures { result ≡ unwritten }
    {
        Printer {
            bytes: Vec::new(alloc),
            apart: false,
            total: false,
        }
    }

    pub(crate) fn into_bytes(self) -> Vec<u8>
        ensures { result.items ≡ self.bytes }
    {
        let Printer { bytes, .. } = self;
        bytes
    }

    fn word(&mut self, bytes: &[u8]) -> Result<(), AllocError>
        ensures { OnOk result (self.new ≡ word_after self.old bytes.now) }
    {
        push_blank(&mut self.bytes, self.apart)?;
        self.bytes.extend_from_slice(bytes)?;
        self.apart = true;
        self.total = false;
        Ok(())
    }

    fn is_apart(&self, mark: Mark) -> bool
        ensures { result ≡ apart_of self.now mark }
    {
        self.apart && !joins_left(mark) && !(self.total && mark.is(Mark::Open))
    }

    pub(crate) fn mark(&mut self, mark: Mark) -> Result<(), AllocError>
        ensures { OnOk result (self.new ≡ piece_after self.old (mark_piece mark)) }
    {
        let apart = self.is_apart(mark);
        push_blank(&mut self.bytes, apart)?;
        self.bytes.extend_from_slice(mark.text())?;
        self.apart = !joins_right(mark);
        self.total = is_total(mark);
        Ok(())
    }

    pub(crate) fn name(&mut self, name: &Name) -> Result<(), AllocError>
        ensures { OnOk result (self.new ≡ piece_after self.old (name_piece name.now)) }
    {
        self.word(name.bytes())
    }

    pub(crate) fn text(&mut self, alloc: Global, text: &Text) -> Result<(), AllocError>
        ensures { OnOk result (self.new ≡ piece_after self.old (text_piece text.now)) }
    {
        let quoted = quoted_text(alloc, text.bytes())?;
        self.word(quoted.as_slice())
    }

    pub(crate) fn number(&mut self, number: i128) -> Result<(), AllocError>
        ensures { OnOk result (self.new ≡ piece_after self.old (number_piece number)) }
    {
        let mut digits = Buffer::new();
        self.word(digits.format(number).as_bytes())
    }

    pub(crate) fn whole(&mut self, number: u128) -> Result<(), AllocError>
        ensures { OnOk result (self.new ≡ piece_after self.old (whole_piece number)) }
    {
        let mut digits = Buffer::new();
        self.word(digits.format(number).as_bytes())
    }
}
