//! The language of strip: its tokens, the trees of its statements, and their canonical text.
#![tactic(auto)]

mod cutting;
mod deeds;
mod expression_text;
mod expressions;
mod fault_text;
mod faults;
mod marks;
mod printed;
mod printer;
mod queries;
mod rules;
mod statement_text;
mod statements;
mod token_types;

pub use cutting::{is_grammar_name, tokens};
pub use deeds::{Deed, SetTree, SetTreeList};
pub use expressions::{Expr, Op};
pub use faults::{ParseError, ParseFail, Why};
pub use marks::Mark;
pub use queries::{
    ColTree, ColTreeList, EntryTree, EntryTreeList, ItemTree, ItemTreeList, Origin, QueryTree,
    Total,
};
pub use rules::{
    BoundTree, BoundTreeList, EventTree, EventTreeList, Manner, StepTree, StepTreeList,
};
pub use statements::Statement;
pub use token_types::{Digits, Placed, Token, TokenList};
