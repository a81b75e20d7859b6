ghost use Rattle.std.specs.Prelude.{◌≡◌, ◌<◌, ◌≤◌, ◌^◌, ◌∷◌, ◌==◌, false, is_some, IfOk, IfSome, IsTrue, ℕ, length, drop};
ghost use Rattle.std.specs.List.{list_all, list_any, prefix_len};
ghost use Rattle.strip_value.specs.Name.{is_digit as digit, is_word_byte as word_byte, is_name};
ghost use Rattle.strip_value.specs.Pieces.{is_blank as blank};
ghost use Rattle.strip_ast.specs.Marks.{keyword_of, symbol_of};
ghost use Rattle.strip_ast.specs.Tokens.{AreTokensOf, IsCut, begins_word as word_begins, is_grammar_name as named, word_token as token_of_word, number_token as token_of_digits, text_token as token_of_text, number_from, text_from, text_start, symbol_start, run_start, is_word as worded, IsTokenOf, IsText, HasSize, IsWithin, begins_with, token_at, placed_at, tokens_of, tokens_from};

use crate::faults::{ParseError, ParseFail, Why};
use crate::marks::{keyword, symbol};
use crate::token_types::{Digits, Placed, Token, TokenList};
use std::alloc::{AllocError, Global};
use strip_value::{Name, NameError, Text, TextError};

/// The most bytes of a name.
const LONGEST_NAME: usize = 32;

/// The most digits of a number.
const MOST_DIGITS: usize = 38;

/// Why no token is cut.
#[derive(Debug, Drop)]
pub(crate) enum CutFail {
    Refused(Why),
    Memory,
}

impl From<AllocError> for CutFail {
    fn from(_error: AllocError) -> CutFail {
        CutFail::Memory
    }
}

fn is_blank(byte: u8) -> bool
    ensures { result ≡ blank byte }
{
    byte == b' ' || byte == b'\t' || byte == b'\r' || byte == b'\n'
}

fn is_digit(byte: u8) -> bool
    ensures { result ≡ digit byte }
{
    byte.is_ascii_digit()
}

fn is_word_byte(byte: u8) -> bool
    ensures { result ≡ word_byte byte }
{
    byte.is_ascii_lowercase() || byte.is_ascii_digit() || byte == b'_'
}

fn begins_word(byte: u8) -> bool
    ensures { result ≡ word_begins byte }
{
    is_word_byte(byte) && !is_digit(byte)
}

fn word_len(bytes: &[u8]) -> usize
    ensures { result ≡ prefix_len word_byte bytes.now }
{
    for (at, byte) in bytes.iter().enumerate() {
        if !is_word_byte(*byte) {
            return at;
        }
    }
    bytes.len()
}

fn digits_len(bytes: &[u8]) -> usize
    ensures { result ≡ prefix_len digit bytes.now }
{
    for (at, byte) in bytes.iter().enumerate() {
        if !is_digit(*byte) {
            return at;
        }
    }
    bytes.len()
}

fn are_word_bytes(bytes: &[u8]) -> bool
    ensures { result ≡ list_all word_byte bytes.now }
{
    bytes.iter().all(|byte| is_word_byte(*byte))
}

fn is_word(bytes: &[u8]) -> bool
    ensures { result ≡ worded bytes.now }
{
    match bytes {
        [] => false,
        [first, ..] => are_word_bytes(bytes) && !is_digit(*first),
    }
}

/// Whether the word is a name of the grammar: no keyword, of at most 32 bytes, in the form of a name.
pub fn is_grammar_name(word: &[u8]) -> bool
    ensures { result ≡ named word.now }
{
    is_word(word) && word.len() <= LONGEST_NAME && !is_keyword(word)
}

fn is_keyword(word: &[u8]) -> bool
    ensures { result ≡ is_some (keyword_of word.now) }
{
    keyword(word).is_some()
}

fn name_of(alloc: Global, word: &[u8]) -> Result<Name, AllocError>
    requires { IsTrue (is_name word.now) }
    ensures { IfOk result (λ name. name ≡ word.now) }
{
    match Name::of(alloc, word) {
        Ok(name) => Ok(name),
        Err(NameError::Memory) => Err(AllocError),
        Err(NameError::BadName) => unreachable!(),
    }
}

fn word_token(alloc: Global, word: &[u8]) -> Result<Token, CutFail>
    requires { IsTrue (worded word.now) }
    ensures { IsTokenOf (token_of_word word.now) result }
{
    if let Some(mark) = keyword(word) {
        return Ok(Token::Mark(mark));
    }
    if word.len() > LONGEST_NAME {
        return Err(CutFail::Refused(Why::TooLong));
    }
    match name_of(alloc, word) {
        Ok(name) => Ok(Token::Name(name)),
        Err(_) => Err(CutFail::Memory),
    }
}

fn number(digits: &[u8]) -> u128
    requires all { IsTrue (list_all digit digits.now) }
    requires few { length digits.now ≤ 38 }
    ensures value { result ≡ number_from 0 digits.now }
    ensures bound { result < 10 ^ 38 }
{
    let mut number = 0u128;
    for byte in digits {
        number = number * 10 + u128::from(*byte - b'0');
    }
    number
}

fn number_token(digits: &[u8]) -> Result<Token, CutFail>
    requires { IsTrue (list_all digit digits.now) }
    ensures { IsTokenOf (token_of_digits digits.now) result }
{
    if digits.len() > MOST_DIGITS {
        return Err(CutFail::Refused(Why::TooLong));
    }
    Ok(Token::Number(Digits::of(number(digits))))
}

fn has_line_feed(bytes: &[u8]) -> bool
    ensures { result ≡ list_any (λ c. c == 10) bytes.now }
{
    bytes.iter().any(|byte| *byte == b'\n')
}

#[tactic(auto, using(crate::proofs::CutLemmas::utf8_yes))]
fn text_token(alloc: Global, value: &[u8]) -> Result<Token, CutFail>
    ensures { IsTokenOf (token_of_text value.now) result }
{
    if has_line_feed(value) {
        return Err(CutFail::Refused(Why::NoToken));
    }
    match Text::of(alloc, value) {
        Ok(text) => Ok(Token::Text(text)),
        Err(TextError::NotUtf8 { .. }) => Err(CutFail::Refused(Why::NoToken)),
        Err(TextError::TooLong { .. }) => Err(CutFail::Refused(Why::TooLong)),
        Err(TextError::Memory) => Err(CutFail::Memory),
    }
}

/// The value of the text that goes on with these bytes, and how many of them belong to it.
fn text_behind_quote(alloc: Global, bytes: &[u8]) -> Result<Option<(Vec<u8>, usize)>, AllocError>
    ensures text { IfOk result (λ found. IsText (text_from false bytes.now) found) }
    ensures within { IfOk result (λ found. IsWithin found (length bytes.now)) }
{
    let mut value = Vec::new(alloc);
    let mut pending = false;
    for (at, byte) in bytes.iter().enumerate() {
        let quote = *byte == b'\'';
        if pending && !quote {
            return Ok(Some((value, at)));
        }
        if pending || !quote {
            value.push(*byte)?;
        }
        pending = quote && !pending;
    }
    if pending {
        return Ok(Some((value, bytes.len())));
    }
    Ok(None)
}

#[tactic(auto, using(crate::proofs::CutLemmas::word_run, crate::proofs::CutLemmas::word_run_some))]
fn cut_word(alloc: Global, bytes: &[u8]) -> Result<(Token, usize), CutFail>
    requires { IsTrue (begins_with word_begins bytes.now) }
    ensures cut { IsCut (run_start (prefix_len word_byte bytes.now) bytes.now token_of_word) result }
    ensures sized { IfOk result (λ found. HasSize bytes.now found.1) }
{
    let len = word_len(bytes);
    let token = word_token(alloc, &bytes[..len])?;
    Ok((token, len))
}

#[tactic(auto, using(crate::proofs::CutLemmas::digit_run))]
fn cut_number(bytes: &[u8]) -> Result<(Token, usize), CutFail>
    requires { IsTrue (begins_with digit bytes.now) }
    ensures cut { IsCut (run_start (prefix_len digit bytes.now) bytes.now token_of_digits) result }
    ensures sized { IfOk result (λ found. HasSize bytes.now found.1) }
{
    let len = digits_len(bytes);
    let token = number_token(&bytes[..len])?;
    Ok((token, len))
}

fn cut_text(alloc: Global, bytes: &[u8]) -> Result<(Token, usize), CutFail>
    requires { 0 < length bytes.now }
    ensures cut { IsCut (text_start (text_from false (drop 1 bytes.now))) result }
    ensures sized { IfOk result (λ found. HasSize bytes.now found.1) }
{
    match text_behind_quote(alloc, &bytes[1..]) {
        Ok(Some((value, len))) => {
            let token = text_token(alloc, value.as_slice())?;
            Ok((token, len + 1))
        }
        Ok(None) => Err(CutFail::Refused(Why::NoToken)),
        Err(_) => Err(CutFail::Memory),
    }
}

#[tactic(auto, using(crate::proofs::MarkLemmas::symbol_fits))]
fn cut_symbol(bytes: &[u8]) -> Result<(Token, usize), CutFail>
    ensures cut { IsCut (symbol_start (symbol_of bytes.now)) result }
    ensures sized { IfOk result (λ found. HasSize bytes.now found.1) }
{
    match symbol(bytes) {
        Some(mark) => Ok((Token::Mark(mark), mark.text().len())),
        None => Err(CutFail::Refused(Why::NoToken)),
    }
}

/// The token at the front of bytes that begin with no blank, and its length.
#[tactic(auto, unfolding(crate::specs::Tokens::token_at))]
fn cut(alloc: Global, bytes: &[u8]) -> Result<(Token, usize), CutFail>
    ensures cut { IsCut (token_at bytes.now) result }
    ensures sized { IfOk result (λ found. HasSize bytes.now found.1) }
{
    let Some(first) = bytes.first() else {
        return Err(CutFail::Refused(Why::NoToken));
    };
    if begins_word(*first) {
        return cut_word(alloc, bytes);
    }
    if is_digit(*first) {
        return cut_number(bytes);
    }
    if *first == b'\'' {
        return cut_text(alloc, bytes);
    }
    cut_symbol(bytes)
}

fn placed(at: usize, token: Token) -> Placed
    ensures { result ≡ placed_at at token }
{
    let at = at as u64;
    Placed { at, token }
}

/// All tokens of the bytes, or the fault that stands first in them.
#[tactic(auto, unfolding(crate::specs::Tokens::tokens_of), using(crate::proofs::CutLemmas::cuts))]
pub fn tokens(alloc: Global, bytes: &[u8]) -> Result<TokenList, ParseFail>
    ensures { AreTokensOf bytes.now result }
{
    let mut found = TokenList::new(alloc);
    let mut left = bytes;
    while let [first, behind @ ..] = left {
        if is_blank(*first) {
            left = behind;
            continue;
        }
        let at = bytes.len() - left.len();
        match cut(alloc, left) {
            Ok((token, len)) => {
                let Ok(()) = found.push(placed(at, token)) else {
                    return Err(ParseFail::Memory);
                };
                let (_, behind) = left.split_at(len);
                left = behind;
            }
            Err(CutFail::Memory) => return Err(ParseFail::Memory),
            Err(CutFail::Refused(why)) => {
                let at = at as u64;
                return Err(ParseFail::Fault(ParseError { at, why }));
            }
        }
    }
    Ok(found)
}
