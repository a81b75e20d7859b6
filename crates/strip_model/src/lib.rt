//! Histories: the entries that the engine keeps, what they mean, which histories are legal, what the engine
//! answers, and the texts of replies.
#![tactic(auto)]

mod entries;
mod history;
pub mod laws;
#[cfg(test)]
mod tests;
mod texts;

pub use entries::Entry;
pub use history::History;
pub use strip_value::{Act, ActError, Bytes, Duplicate, Holds, Id, Ids, Reply, Row, TableDef};
pub use texts::{
    empty_text, finished_text, in_hand_text, job_text, not_due_text, not_running_text,
    refusal_text, reply_text, spent_text,
};
