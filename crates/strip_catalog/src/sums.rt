//! The function and the rule that keep a derived table by sums, at once.
ghost use Rattle.std.specs.Prelude.{◌≡◌, ◌≤◌, ◌∷◌, [], IfOk, IsTrue, OnOk, length};
ghost use Rattle.strip_value.specs.Name.{is_name};
ghost use Rattle.strip_meaning.specs.Maintained.{binds, delta_queries, delta_query, delta_what, keep_function, keep_rule, source_of};
ghost use Rattle.strip_setup.specs.Maintain.{function_name, rule_name};
ghost use Rattle.strip_catalog.specs.First.{at_once};
ghost use Rattle.strip_catalog.specs.Sums.{bound_name, delta_items, signed_by};
ghost use Rattle.strip_value.specs.declared.rules.Event.TheVariants.{Inserted, Deleted, Updated};

use sqlite_items::Boxed;
use std::alloc::{AllocError, Global};
use strip_value::{
    BoundDef, BoundDefList, BoundQuery, BoundQueryList, Calc, Duplicate, Event, EventList,
    Function, Id, Input, InputList, Item, ItemList, Name, NameError, Query, Rule, Step, StepList,
    TableDef, U32List, What,
};

/// Whether a row comes or goes: its totals count as they are, or negative.
#[derive(Clone, Copy, Debug)]
pub enum Sign {
    Coming,
    Going,
}

fn name_of(alloc: Global, bytes: &[u8]) -> Result<Name, AllocError>
    requires { IsTrue (is_name bytes.now) }
    ensures { IfOk result (λ name. name ≡ bytes.now) }
{
    match Name::of(alloc, bytes) {
        Ok(name) => Ok(name),
        Err(NameError::Memory) => Err(AllocError),
        Err(NameError::BadName) => unreachable!(),
    }
}

/// A name, read again from its bytes: that these are a name, which every name keeps, is told where one is made of them.
fn read_again(alloc: Global, name: &Name) -> Result<Name, AllocError>
    ensures same { IfOk result (λ again. again ≡ name.now) }
    ensures named { OnOk result (IsTrue (is_name name.now)) }
{
    match Name::of(alloc, name.bytes()) {
        Ok(again) => Ok(again),
        Err(_) => Err(AllocError),
    }
}

/// The name of the function of a table of this name.
fn function_name(alloc: Global, table: &Name) -> Result<Name, AllocError>
    requires named { IsTrue (is_name table.now) }
    requires short { length table.now ≤ 32 }
    ensures { IfOk result (λ name. name ≡ function_name table.now) }
{
    let mut bytes = Vec::from_slice(alloc, b"keep_")?;
    bytes.extend_from_slice(table.bytes())?;
    name_of(alloc, bytes.as_slice())
}

/// The name of its rule.
fn rule_name(alloc: Global, table: &Name) -> Result<Name, AllocError>
    requires named { IsTrue (is_name table.now) }
    requires short { length table.now ≤ 32 }
    ensures { IfOk result (λ name. name ≡ rule_name table.now) }
{
    let mut bytes = Vec::from_slice(alloc, b"keep_")?;
    bytes.extend_from_slice(table.bytes())?;
    bytes.extend_from_slice(b"_1")?;
    name_of(alloc, bytes.as_slice())
}

/// The name of its bound table.
fn bound_name(alloc: Global, table: &Name) -> Result<Name, AllocError>
    requires named { IsTrue (is_name table.now) }
    requires short { length table.now ≤ 32 }
    ensures { IfOk result (λ name. name ≡ bound_name table.now) }
{
    let mut bytes = Vec::from_slice(alloc, b"delta_")?;
    bytes.extend_from_slice(table.bytes())?;
    name_of(alloc, bytes.as_slice())
}

/// The function that adds bound rows to the table of a number.
pub(crate) fn keep_function(alloc: Global, table: &TableDef, id: Id) -> Result<Function, AllocError>
    requires { length table.now.name ≤ 32 }
    ensures { IfOk result (λ function. function ≡ keep_function table.now id) }
{
    let own = read_again(alloc, &table.name)?;
    let name = function_name(alloc, &own)?;
    let mut steps = StepList::new(alloc);
    steps.push(Step::Add { bound: 0, into: id })?;
    let bound = BoundDef {
        name: bound_name(alloc, &own)?,
        columns: table.columns.copy(alloc)?,
    };
    let mut bounds = BoundDefList::new(alloc);
    bounds.push(bound)?;
    Ok(Function {
        name,
        steps,
        bound: bounds,
    })
}

/// A total of a row that comes or goes.
fn signed(alloc: Global, sign: Sign, calc: Calc) -> Result<Calc, AllocError>
    ensures { IfOk result (λ made. made ≡ signed_by sign calc) }
{
    let zero = Boxed::new(alloc, Calc::Number(0))?;
    let calc = Boxed::new(alloc, calc)?;
    match sign {
        Sign::Coming => Ok(Calc::Add(zero, calc)),
        Sign::Going => Ok(Calc::Sub(zero, calc)),
    }
}

/// An item of the table's query for one row.
fn delta_what(alloc: Global, sign: Sign, what: &What) -> Result<What, AllocError>
    ensures { IfOk result (λ made. made ≡ delta_what (signed_by sign) what.now) }
{
    match what {
        What::Plain(calc) => Ok(What::Plain(calc.copy(alloc)?)),
        What::Sum(calc) => {
            let calc = calc.copy(alloc)?;
            Ok(What::Plain(signed(alloc, sign, calc)?))
        }
        What::Count => Ok(What::Plain(signed(alloc, sign, Calc::Number(1))?)),
    }
}

fn delta_items(alloc: Global, sign: Sign, items: &[Item]) -> Result<ItemList, AllocError>
    ensures { IfOk result (λ made. made ≡ delta_items sign items.now) }
{
    let mut made = ItemList::new(alloc);
    for item in items {
        let name = item.name.copy(alloc)?;
        let what = delta_what(alloc, sign, &item.what)?;
        made.push(Item { name, what })?;
    }
    Ok(made)
}

/// The table's query for single rows of a transition table, whose rows the function's bound table takes.
fn delta_bound(
    alloc: Global,
    sign: Sign,
    from: Input,
    query: &Query,
) -> Result<BoundQuery, AllocError>
    ensures { IfOk result (λ made. made ≡ binds (delta_query (signed_by sign) from query.now)) }
{
    let items = delta_items(alloc, sign, query.items.as_slice())?;
    let filter = query.filter.copy(alloc)?;
    let mut entries = InputList::new(alloc);
    entries.push(from)?;
    Ok(BoundQuery {
        query: Query {
            items,
            entries,
            filter,
            group: None,
        },
        bound: Some(0),
    })
}

/// What comes and what goes, of added, removed and replaced rows.
fn delta_queries(alloc: Global, query: &Query) -> Result<BoundQueryList, AllocError>
    ensures { IfOk result (λ made. made ≡ delta_queries query.now) }
{
    let mut queries = BoundQueryList::new(alloc);
    queries.push(delta_bound(alloc, Sign::Coming, Input::Inserted, query)?)?;
    queries.push(delta_bound(alloc, Sign::Going, Input::Deleted, query)?)?;
    queries.push(delta_bound(alloc, Sign::Going, Input::Old, query)?)?;
    queries.push(delta_bound(alloc, Sign::Coming, Input::New, query)?)?;
    Ok(queries)
}

/// The table that a query of one entry reads.
fn source_of(query: &Query) -> Id
    ensures { result ≡ source_of query.now }
{
    match query.entries.as_slice().first() {
        Some(Input::Table(id)) => *id,
        _ => Id(0),
    }
}

/// All changes of a table.
fn all_events(alloc: Global) -> Result<EventList, AllocError>
    ensures { IfOk result (λ events. events ≡ Inserted ∷ Deleted ∷ Updated [] ∷ []) }
{
    let mut events = EventList::new(alloc);
    events.push(Event::Inserted)?;
    events.push(Event::Deleted)?;
    events.push(Event::Updated(U32List::new(alloc)))?;
    Ok(events)
}

/// The rule that binds what the function of a number adds.
pub(crate) fn keep_rule(
    alloc: Global,
    table: &TableDef,
    query: &Query,
    function: u32,
) -> Result<Rule, AllocError>
    requires { length table.now.name ≤ 32 }
    ensures { IfOk result (λ rule. rule ≡ keep_rule table.now query.now function at_once) }
{
    let own = read_again(alloc, &table.name)?;
    let name = rule_name(alloc, &own)?;
    let events = all_events(alloc)?;
    let evaluate = delta_queries(alloc, query)?;
    Ok(Rule {
        name,
        table: source_of(query),
        events,
        conditions: BoundQueryList::new(alloc),
        evaluate,
        function,
        unique: None,
        after: 0,
    })
}
