//! What a catalog answers to statements, as replies of a script are written.
ghost use Rattle.std.specs.Prelude.{◌↔◌, IsTrue};
ghost use Rattle.strip_catalog.specs.Accepted.{HasText};
ghost use Rattle.strip_acts.specs.Writable.{IsAct};
ghost use Rattle.strip_catalog.specs.Calls.{IsDeclaration};

use std::alloc::{AllocError, Global};
use std::str;
use strip_ast::{Deed, Manner, ParseFail, Statement};
use strip_catalog::{Catalog, SetupError};
use strip_parse::parse;
use strip_value::{Act, By, Name};

/// Bytes of a text that is ASCII.
fn ascii(alloc: Global, text: &[u8]) -> Result<String, AllocError> {
    String::from_str(alloc, str::from_utf8(text).unwrap_or("?"))
}

/// The text of a refusal.
fn refusal_text(alloc: Global, error: &SetupError) -> Result<String, AllocError> {
    match error {
        SetupError::Memory => Err(AllocError),
        cause => ascii(alloc, cause.text(alloc)?.as_slice()),
    }
}

/// `ok`, or why not.
fn text_of(alloc: Global, answer: Result<(), SetupError>) -> Result<String, AllocError> {
    match answer {
        Ok(()) => format!(in alloc; "ok"),
        Err(error) => refusal_text(alloc, &error),
    }
}

fn is_declaration(statement: &Statement) -> bool
    ensures { IsTrue result ↔ IsDeclaration statement.now }
{
    match statement {
        Statement::Table { .. }
        | Statement::Stream { .. }
        | Statement::Derive { .. }
        | Statement::Function { .. }
        | Statement::Rule { .. } => true,
        _ => false,
    }
}

fn is_act(deed: &Deed) -> bool
    ensures { IsTrue result ↔ IsAct deed.now }
{
    match deed {
        Deed::Insert { .. }
        | Deed::Put { .. }
        | Deed::Update { .. }
        | Deed::Delete { .. }
        | Deed::Select { .. }
        | Deed::Show { .. } => true,
        _ => false,
    }
}

/// A derived table is to be kept, if it can be so far.
fn keep(
    alloc: Global,
    catalog: &mut Catalog,
    table: &Name,
    by: By,
    manner: &Manner,
) -> Result<String, AllocError> {
    if by != By::Sum || manner.unique.is_some() || manner.after != 0 {
        return format!(in alloc; "NotBuilt");
    }
    match catalog.kept_by_sums(table)? {
        Some(made) => text_of(alloc, catalog.keep(made)),
        None => format!(in alloc; "NotBuilt"),
    }
}

/// The text of a deed for which no caller is named.
fn deed_text(alloc: Global, deed: Deed) -> Result<String, AllocError> {
    let statement = Statement::Deed { caller: None, deed };
    let bytes = statement.print(alloc)?;
    ascii(alloc, bytes.as_slice())
}

/// `ok`, and how the act is written by the numbers of its tables and columns.
fn written(alloc: Global, catalog: &Catalog, act: &Act) -> Result<String, AllocError> {
    if !catalog.suits(act) {
        return format!(in alloc; "ok, but it does not suit");
    }
    let text = deed_text(alloc, catalog.tree_of(act)?)?;
    format!(in alloc; "ok: {text}")
}

fn act(alloc: Global, catalog: &Catalog, deed: &Deed) -> Result<String, AllocError> {
    if !is_act(deed) {
        return format!(in alloc; "no act");
    }
    match catalog.act(deed) {
        Ok(act) => written(alloc, catalog, &act),
        Err(error) => refusal_text(alloc, &error),
    }
}

/// What the catalog answers to a statement.
fn statement_answer(
    alloc: Global,
    catalog: &mut Catalog,
    statement: &Statement,
) -> Result<String, AllocError>
    requires { HasText statement.now }
{
    if is_declaration(statement) {
        return text_of(alloc, catalog.add(statement));
    }
    match statement {
        Statement::Maintain { name, by, manner } => keep(alloc, catalog, name, *by, manner),
        Statement::Ready => text_of(alloc, catalog.ready()),
        Statement::Deed { deed, .. } => act(alloc, catalog, deed),
        _ => format!(in alloc; "neither of setup nor an act"),
    }
}

/// The same of its text.
fn text_answer(alloc: Global, catalog: &mut Catalog, text: &str) -> Result<String, AllocError> {
    match parse(alloc, text.as_bytes()) {
        Ok(statement) => statement_answer(alloc, catalog, &statement),
        Err(ParseFail::Fault(fault)) => ascii(alloc, fault.text(alloc)?.as_slice()),
        Err(ParseFail::Memory) => Err(AllocError),
    }
}

/// How often a statement stands there, and its text: `64 times stream s# into t` are 64 statements, with numbers from 0 in the
/// place of the `#`.
fn repeated(text: &str) -> Option<(u32, &str)> {
    let (count, pattern) = text.split_once(" times ")?;
    match count.trim().parse::<u32>() {
        Ok(count) => Some((count, pattern)),
        Err(_) => None,
    }
}

/// The text with a number in the place of the `#`.
fn numbered(alloc: Global, pattern: &str, number: u32) -> Result<String, AllocError> {
    match pattern.split_once('#') {
        Some((head, tail)) => format!(in alloc; "{head}{number}{tail}"),
        None => String::from_str(alloc, pattern),
    }
}

/// What the catalog answers to the last of these.
fn last_answer(alloc: Global, catalog: &mut Catalog, text: &str) -> Result<String, AllocError> {
    let Some((count, pattern)) = repeated(text) else {
        return text_answer(alloc, catalog, text);
    };
    let mut last = String::new(alloc);
    for number in 0..count {
        let one = numbered(alloc, pattern, number)?;
        last = text_answer(alloc, catalog, one.as_str())?;
    }
    Ok(last)
}

/// What these statements declare.
pub(crate) fn declared(alloc: Global, line: &str) -> Result<Catalog, AllocError> {
    let mut catalog = Catalog::new(alloc);
    for text in line.split(';') {
        text_answer(alloc, &mut catalog, text)?;
    }
    Ok(catalog)
}

/// What such a catalog, as it stands before the line, answers to the last of its statements.
pub(crate) fn answer(alloc: Global, before: &Catalog, line: &str) -> Result<String, AllocError> {
    let mut catalog = before.copy()?;
    let mut last = String::new(alloc);
    for text in line.split(';') {
        last = last_answer(alloc, &mut catalog, text)?;
    }
    Ok(last)
}
