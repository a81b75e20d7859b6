ghost use Rattle.std.specs.Prelude.{◌≡◌, ◌<◌, [], ◌∷◌, length, Ok, IsTrue, ◌↔◌};
ghost use Rattle.std.specs.Bool.{OnTrue, OnFalse};
ghost use Rattle.strip_ast.specs.Grammar.{mark as marked, operator as counted, name as named, number as numbered, caller as called, text as texted};
ghost use Rattle.strip_parse.specs.Deciding.{marks, names as name_class, numbers as number_class, texts as text_class, begins_in, has_class, token_class};
ghost use Rattle.strip_parse.specs.Reading.{take_one, fresh};
ghost use Rattle.strip_parse.specs.Taking.{IsTaken, place_of, signed_of, negated_of};

use crate::stops::Stop;
use std::alloc::Global;
use std::marker::Model;
use strip_ast::{Mark, Placed, Token};
use strip_value::{Duplicate, Name, Text};

/// The most operators of one expression.
const MOST_OPERATORS: u32 = 256;

/// The greatest number of a caller.
const LAST_CALLER: u128 = 4_294_967_295;

/// The tokens of a statement that are left.
#[derive(Drop)]
pub(crate) struct Cursor<'a> {
    left: &'a [Placed],
    /// The operators of the expression so far.
    operators: u32,
    /// The number of the statement's tokens: no list has more items.
    most: usize,
}

impl<'a> Model for Cursor<'a> {
    ghost use Rattle.strip_parse.specs.Reading.{State};

    ghost Value = { State };

    ghost view = { λ c. record { left = c.left.now; operators = c.operators; most = c.most } };
}

impl<'a> Cursor<'a> {
    pub(crate) fn new(tokens: &'a [Placed]) -> Cursor<'a>
        ensures { result ≡ record { left = tokens.now; operators = 0; most = length tokens.now } }
    {
        Cursor {
            left: tokens,
            operators: 0,
            most: tokens.len(),
        }
    }

    pub(crate) fn most(&self) -> usize
        ensures { result ≡ self.now.most }
    {
        self.most
    }

    /// Whether no token is left.
    pub(crate) fn is_at_end(&self) -> bool
        ensures { IsTrue result ↔ (self.now.left ≡ []) }
    {
        self.left.is_empty()
    }

    /// Where the next token begins.
    pub(crate) fn place(&self) -> Option<u64>
        ensures { result ≡ place_of self.now.left }
    {
        match self.left.first() {
            Some(placed) => Some(placed.at),
            None => None,
        }
    }

    /// Whether the next token is the mark.
    pub(crate) fn at(&self, mark: Mark) -> bool
        ensures { result ≡ begins_in (marks mark ∷ []) self.now.left }
    {
        match self.left.first() {
            Some(placed) => is_mark(&placed.token, mark),
            None => false,
        }
    }

    /// Takes the mark, where it is the next token.
    pub(crate) fn skip(&mut self, mark: Mark) -> bool
        ensures tested { result ≡ begins_in (marks mark ∷ []) self.old.left }
        ensures taken { OnTrue result (take_one (marked mark) self.old ≡ Ok (tt, self.new)) }
        ensures kept { OnFalse result (self.new ≡ self.old) }
    {
        let [placed, behind @ ..] = self.left else {
            return false;
        };
        if is_mark(&placed.token, mark) {
            self.left = behind;
            true
        } else {
            false
        }
    }

    /// Takes the mark, which alone can stand here.
    pub(crate) fn expect(&mut self, mark: Mark) -> Result<(), Stop>
        ensures { IsTaken (take_one (marked mark) self.old) result self.new }
    {
        let [placed, behind @ ..] = self.left else {
            return Err(Stop::Unexpected);
        };
        if !is_mark(&placed.token, mark) {
            return Err(Stop::Unexpected);
        }
        self.left = behind;
        Ok(())
    }

    /// Takes the operator, which counts.
    pub(crate) fn operator(&mut self, mark: Mark) -> Result<(), Stop>
        ensures { IsTaken (take_one (counted mark) self.old) result self.new }
    {
        let [placed, behind @ ..] = self.left else {
            return Err(Stop::Unexpected);
        };
        if !is_mark(&placed.token, mark) {
            return Err(Stop::Unexpected);
        }
        if self.operators >= MOST_OPERATORS {
            return Err(Stop::TooDeep);
        }
        self.left = behind;
        self.operators += 1;
        Ok(())
    }

    pub(crate) fn name(&mut self, alloc: Global) -> Result<Name, Stop>
        ensures { IsTaken (take_one named self.old) result self.new }
    {
        let [placed, behind @ ..] = self.left else {
            return Err(Stop::Unexpected);
        };
        let Token::Name(name) = &placed.token else {
            return Err(Stop::Unexpected);
        };
        let name = name.copy(alloc)?;
        self.left = behind;
        Ok(name)
    }

    pub(crate) fn text(&mut self, alloc: Global) -> Result<Text, Stop>
        ensures { IsTaken (take_one texted self.old) result self.new }
    {
        let [placed, behind @ ..] = self.left else {
            return Err(Stop::Unexpected);
        };
        let Token::Text(text) = &placed.token else {
            return Err(Stop::Unexpected);
        };
        let text = text.copy(alloc)?;
        self.left = behind;
        Ok(text)
    }

    pub(crate) fn number(&mut self) -> Result<u128, Stop>
        ensures { IsTaken (take_one numbered self.old) result self.new }
    {
        let [placed, behind @ ..] = self.left else {
            return Err(Stop::Unexpected);
        };
        let Token::Number(number) = &placed.token else {
            return Err(Stop::Unexpected);
        };
        self.left = behind;
        Ok(number.value())
    }

    /// A number of an expression or a row.
    pub(crate) fn signed(&mut self) -> Result<i128, Stop>
        ensures { IsTaken (signed_of (take_one numbered self.old)) result self.new }
    {
        let [placed, behind @ ..] = self.left else {
            return Err(Stop::Unexpected);
        };
        let Token::Number(number) = &placed.token else {
            return Err(Stop::Unexpected);
        };
        self.left = behind;
        Ok(number.signed())
    }

    /// The same behind a minus.
    pub(crate) fn negated(&mut self) -> Result<i128, Stop>
        ensures { IsTaken (negated_of (take_one numbered self.old)) result self.new }
    {
        let [placed, behind @ ..] = self.left else {
            return Err(Stop::Unexpected);
        };
        let Token::Number(number) = &placed.token else {
            return Err(Stop::Unexpected);
        };
        self.left = behind;
        Ok(number.negated())
    }

    pub(crate) fn at_name(&self) -> bool
        ensures { result ≡ begins_in (name_class ∷ []) self.now.left }
    {
        match self.left.first() {
            Some(placed) => is_name(&placed.token),
            None => false,
        }
    }

    pub(crate) fn at_number(&self) -> bool
        ensures { result ≡ begins_in (number_class ∷ []) self.now.left }
    {
        match self.left.first() {
            Some(placed) => is_number(&placed.token),
            None => false,
        }
    }

    pub(crate) fn at_text(&self) -> bool
        ensures { result ≡ begins_in (text_class ∷ []) self.now.left }
    {
        match self.left.first() {
            Some(placed) => is_text(&placed.token),
            None => false,
        }
    }

    /// A number that stands for a caller.
    pub(crate) fn caller(&mut self) -> Result<u32, Stop>
        ensures { IsTaken (take_one called self.old) result self.new }
    {
        let [placed, behind @ ..] = self.left else {
            return Err(Stop::Unexpected);
        };
        let Token::Number(number) = &placed.token else {
            return Err(Stop::Unexpected);
        };
        let number = number.value();
        if number > LAST_CALLER {
            return Err(Stop::TooLong);
        }
        self.left = behind;
        Ok(number as u32)
    }

    /// Begins an expression that is no part of another.
    pub(crate) fn count_anew(&mut self)
        ensures { self.new ≡ fresh self.old }
    {
        self.operators = 0;
    }
}

fn is_mark(token: &Token, mark: Mark) -> bool
    ensures { result ≡ has_class (token_class token.now) (marks mark ∷ []) }
{
    match token {
        Token::Mark(other) => mark.is(*other),
        Token::Name(_) | Token::Number(_) | Token::Text(_) => false,
    }
}

fn is_name(token: &Token) -> bool
    ensures { result ≡ has_class (token_class token.now) (name_class ∷ []) }
{
    match token {
        Token::Name(_) => true,
        Token::Mark(_) | Token::Number(_) | Token::Text(_) => false,
    }
}

fn is_number(token: &Token) -> bool
    ensures { result ≡ has_class (token_class token.now) (number_class ∷ []) }
{
    match token {
        Token::Number(_) => true,
        Token::Mark(_) | Token::Name(_) | Token::Text(_) => false,
    }
}

fn is_text(token: &Token) -> bool
    ensures { result ≡ has_class (token_class token.now) (text_class ∷ []) }
{
    match token {
        Token::Text(_) => true,
        Token::Mark(_) | Token::Name(_) | Token::Number(_) => false,
    }
}
