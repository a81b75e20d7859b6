use strip_value::{Function, Id, Rule};

/// What keeps a derived table from then on, as a `maintain` statement asks for it: a function, and the rule whose
/// actions it is. The rule has the number that the function gets in the catalog that it was made for.
#[derive(Debug, Drop)]
pub struct Made {
    pub function: Function,
    pub rule: Rule,
    pub table: Id,
}
