//! The parts that test programs of rows share. Such a program answers the rows of its input, and its output
//! is compared with a stored output.
//!
//! The input has sections. A line `@ NAME` begins a section. A line that is empty or begins with `#` is
//! copied unchanged. Each other line is a row, which the section answers. If the row cannot be answered, its
//! [`RowFault`] is written in place of the answer. A section may keep state from row to row:
//! [`AnswerSection`] makes the state and passes it to [`Rows::answer`].
//!
//! ```text
//! @ calls
//! # what a row looks like
//! request /a/b 00 -> 00042f612f62000000000100, read back
//! ```
#![tactic(auto)]

mod configs;
mod fault;
mod notation;
mod parts;
mod replies;
mod rows;
mod texts;

pub use configs::{config_with, nodes_of, plugin_of, pools_of};
pub use fault::RowFault;
pub use notation::{NotationFault, bytes_counted, bytes_of};
pub use parts::{bytes_text, number_at, number_of, put_part, word_at, words_of};
pub use replies::{Reply, reply_to};
pub use rows::{AnswerRow, AnswerSection, RowAnswer, Rows, answer_rows};
pub use texts::{map_of, text_at, texts_of};
