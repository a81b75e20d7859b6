//! What names stand for, and names that stand twice.
ghost use Rattle.std.specs.Prelude.{◌≡◌, option_copied, IfOk};
ghost use Rattle.std.specs.Str.{bytes_eq};
ghost use Rattle.strip_setup.specs.Catalog.{column_number, columns_of, each_once, function_named, function_number, has_name, is_derived, rule_named, stream_named, table_named, table_number};

use std::alloc::{AllocError, Global};
use strip_value::{ColumnDef, Duplicate, Function, Name, NameList, Rule, Stream, TableDef};

/// Whether the two names are one.
pub fn is_same(name: &Name, other: &Name) -> bool
    ensures { result ≡ bytes_eq name.now other.now }
{
    name.bytes() == other.bytes()
}

/// Whether the name is one of these.
pub fn has_name(names: &[Name], name: &Name) -> bool
    ensures { result ≡ has_name names.now name.now }
{
    names.iter().any(|other| is_same(other, name))
}

/// The number of the table of a name; none exactly where no table has it.
pub fn table_number(tables: &[TableDef], name: &Name) -> Option<usize>
    ensures { result ≡ table_number tables.now name.now }
{
    tables.iter().position(|table| is_same(&table.name, name))
}

/// The number of the function of a name; none exactly where no function has it.
pub fn function_number(functions: &[Function], name: &Name) -> Option<usize>
    ensures { result ≡ function_number functions.now name.now }
{
    functions
        .iter()
        .position(|function| is_same(&function.name, name))
}

/// The number of the column of a name; none exactly where no column has it.
pub fn column_number(columns: &[ColumnDef], name: &Name) -> Option<usize>
    ensures { result ≡ column_number columns.now name.now }
{
    columns
        .iter()
        .position(|column| is_same(&column.name, name))
}

/// The table of a name; none exactly where no table has it.
pub fn table_named<'a>(tables: &'a [TableDef], name: &Name) -> Option<&'a TableDef>
    ensures { option_copied result ≡ table_named tables.now name.now }
{
    tables.iter().find(|table| is_same(&table.name, name))
}

/// The stream of a name; none exactly where no stream has it.
pub fn stream_named<'a>(streams: &'a [Stream], name: &Name) -> Option<&'a Stream>
    ensures { option_copied result ≡ stream_named streams.now name.now }
{
    streams.iter().find(|stream| is_same(&stream.name, name))
}

/// The function of a name; none exactly where no function has it.
pub fn function_named<'a>(functions: &'a [Function], name: &Name) -> Option<&'a Function>
    ensures { option_copied result ≡ function_named functions.now name.now }
{
    functions
        .iter()
        .find(|function| is_same(&function.name, name))
}

/// The rule of a name; none exactly where no rule has it.
pub fn rule_named<'a>(rules: &'a [Rule], name: &Name) -> Option<&'a Rule>
    ensures { option_copied result ≡ rule_named rules.now name.now }
{
    rules.iter().find(|rule| is_same(&rule.name, name))
}

/// The columns of a table; a table that isn't there has none.
pub fn columns_of(table: Option<&TableDef>) -> &[ColumnDef]
    ensures { result.now ≡ columns_of (option_copied table.entry) }
{
    match table {
        None => &[],
        Some(table) => table.columns.as_slice(),
    }
}

/// Whether the table is there and derived.
pub fn is_derived(table: Option<&TableDef>) -> bool
    ensures { result ≡ is_derived (option_copied table.entry) }
{
    match table {
        None => false,
        Some(table) => table.query.is_some(),
    }
}

/// The names, each once, in the order of first mention.
pub fn each_once(alloc: Global, names: &[Name]) -> Result<NameList, AllocError>
    ensures { IfOk result (λ made. made ≡ each_once names.now) }
{
    let mut made = NameList::new(alloc);
    for name in names {
        if !has_name(made.as_slice(), name) {
            made.push(name.copy(alloc)?)?;
        }
    }
    Ok(made)
}
