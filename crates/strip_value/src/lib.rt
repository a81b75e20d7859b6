//! The plain data of strip: kinds, names, texts, values, rows, lists of them, queries, the
//! definitions of tables, streams, rules and functions, acts and their replies, actions, and the
//! order of rows.
#![tactic(auto)]

mod actions;
mod acts;
mod changes;
mod copies;
mod errors;
mod expressions;
mod ids;
mod items;
mod kinds;
mod laws;
mod names;
mod pieces;
mod queries;
mod rows;
mod rules;
mod streams;
mod tables;
#[cfg(test)]
mod tests;
mod texts;
mod values;

pub use actions::{
    Action, ActionId, ActionList, ActionView, Bound, BoundList, Content, ContentList, Counts,
    FiredList, FiredRule, KeyOf, Pulled,
};
pub use acts::{Act, ActError, ActList, Holds, Reply, ReplyList};
pub use changes::{Change, Changes, Moved, Shift};
pub use copies::Duplicate;
pub use errors::{NameError, TextError};
pub use expressions::{Calc, Cmp, Test};
pub use ids::{Id, Ids};
pub use items::{Bytes, Items, U32List};
pub use kinds::{Kind, KindList, Kinds, fits};
pub use laws::{equal_rows_are_one, equal_values_are_one, row_order_is_total, rows_have_one_order};
pub use names::{Name, NameList};
pub use pieces::Piece;
pub use queries::{Input, InputList, Item, ItemList, Place, PlaceList, Query, Set, SetList, What};
pub use rows::{Row, RowList};
pub use rules::{
    BoundDef, BoundDefList, BoundQuery, BoundQueryList, Event, EventList, Function, FunctionList,
    Rule, RuleList, Step, StepList,
};
pub use streams::{Stream, StreamList};
pub use tables::{By, ColumnDef, ColumnDefList, TableDef, TableDefList};
pub use texts::Text;
pub use values::Value;
