ghost use Rattle.std.specs.Prelude.{◌≡◌, OnOk, List};
ghost use Rattle.strip_ast.specs.Pieces.{Piece, after_all, listed, following, enclosed_by};
ghost use Rattle.strip_ast.specs.Written.{name_pieces, led};

use crate::marks::Mark;
use crate::printer::Printer;
use std::alloc::{AllocError, Global};
use strip_value::Name;

/// A part of a statement that is printed as pieces.
pub(crate) trait Printed {
    ghost pieces: { Self → List Piece };

    fn print_to(&self, alloc: Global, into: &mut Printer) -> Result<(), AllocError>
        ensures { OnOk result (into.new ≡ after_all into.old (pieces self.now)) };
}

/// The items, each after a comma.
#[tactic(auto, using(crate::proofs::PrintLemmas::after_all_append))]
fn print_following<T: Printed>(
    alloc: Global,
    items: &[T],
    into: &mut Printer,
) -> Result<(), AllocError>
    ensures { OnOk result (into.new ≡ after_all into.old (following T.pieces items.now)) }
{
    for item in items {
        into.mark(Mark::Comma)?;
        item.print_to(alloc, into)?;
    }
    Ok(())
}

/// The items with commas between.
#[tactic(auto, using(crate::proofs::PrintLemmas::after_all_append))]
pub(crate) fn print_list<T: Printed>(
    alloc: Global,
    items: &[T],
    into: &mut Printer,
) -> Result<(), AllocError>
    ensures { OnOk result (into.new ≡ after_all into.old (listed T.pieces items.now)) }
{
    match items {
        [] => Ok(()),
        [first, others @ ..] => {
            first.print_to(alloc, into)?;
            print_following(alloc, others, into)?;
            Ok(())
        }
    }
}

/// The items in parentheses.
#[tactic(auto, using(crate::proofs::PrintLemmas::after_all_append))]
pub(crate) fn print_enclosed<T: Printed>(
    alloc: Global,
    items: &[T],
    into: &mut Printer,
) -> Result<(), AllocError>
    ensures { OnOk result (into.new ≡ after_all into.old (enclosed_by (listed T.pieces items.now))) }
{
    into.mark(Mark::Open)?;
    print_list(alloc, items, into)?;
    into.mark(Mark::Close)
}

/// A word before the items, where there are any.
#[tactic(auto, using(crate::proofs::PrintLemmas::after_all_append))]
pub(crate) fn print_led<T: Printed>(
    alloc: Global,
    word: Mark,
    items: &[T],
    into: &mut Printer,
) -> Result<(), AllocError>
    ensures { OnOk result (into.new ≡ after_all into.old (led word T.pieces items.now)) }
{
    if items.is_empty() {
        return Ok(());
    }
    into.mark(word)?;
    print_list(alloc, items, into)
}

impl Printed for Name {
    ghost pieces = { name_pieces };

    fn print_to(&self, _alloc: Global, into: &mut Printer) -> Result<(), AllocError> {
        into.name(self)
    }
}
