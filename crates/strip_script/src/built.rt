//! Which statements are built, and which belong behind the setup.
ghost use Rattle.std.specs.Prelude.{◌≡◌, IfOk};
ghost use Rattle.strip_ast.specs.declared.deeds.Deed.TheVariants as deed;
ghost use Rattle.strip_catalog.specs.Accepted.{IsDeclared};
ghost use Rattle.strip_script.specs.Built.{is_at_once as manner_is_at_once, is_built as statement_is_built, is_built_deed as deed_is_built, is_late as statement_is_late};

use std::alloc::AllocError;
use strip_ast::{Deed, Manner, Statement};
use strip_catalog::Catalog;
use strip_engine::row_misfit;
use strip_value::{By, Name, Row};

/// Whether the row may be put into the table of a name: that one isn't made by a query, and the row has its columns.
fn takes_row(catalog: &Catalog, table: &Name, row: &Row) -> bool
    requires { IsDeclared catalog.now }
    ensures { result ≡ deed_is_built catalog.now (deed.Put table.now row.now) }
{
    match catalog.find(table) {
        Some(id) => {
            let def = catalog.table(id);
            def.query.is_none() && row_misfit(def.columns.as_slice(), row.values()).is_none()
        }
        None => false,
    }
}

fn is_built_deed(catalog: &Catalog, deed: &Deed) -> bool
    requires { IsDeclared catalog.now }
    ensures { result ≡ deed_is_built catalog.now deed.now }
{
    match deed {
        Deed::Put { table, row } => takes_row(catalog, table, row),
        Deed::Select { .. } | Deed::Show { .. } | Deed::Start | Deed::Finish { .. } => true,
        _ => false,
    }
}

/// Whether each commit makes an action of its own, due at once.
fn is_at_once(manner: &Manner) -> bool
    ensures { result ≡ manner_is_at_once manner.now }
{
    manner.unique.is_none() && manner.after == 0
}

/// Whether the statement is built.
pub(crate) fn is_built(catalog: &Catalog, statement: &Statement) -> Result<bool, AllocError>
    requires { IsDeclared catalog.now }
    ensures { IfOk result (λ built. built ≡ statement_is_built catalog.now statement.now) }
{
    match statement {
        Statement::Table { .. }
        | Statement::Stream { .. }
        | Statement::Derive { .. }
        | Statement::Ready => Ok(true),
        Statement::Maintain {
            name,
            by: By::Sum,
            manner,
        } => Ok(is_at_once(manner) && catalog.kept_by_sums(name)?.is_some()),
        Statement::Deed { caller: None, deed } => Ok(is_built_deed(catalog, deed)),
        _ => Ok(false),
    }
}

/// Whether the statement belongs behind the setup.
pub(crate) fn is_late(statement: &Statement) -> bool
    ensures { result ≡ statement_is_late statement.now }
{
    match statement {
        Statement::At { .. } | Statement::Deed { .. } => true,
        _ => false,
    }
}
