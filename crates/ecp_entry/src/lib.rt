//! The entries of a history: what each says, its item in a log, and its text.
//!
//! It stands on `ecp_store` for blocks and on `ecp_text` for lines. Its definitions (`specs/`) are the words and numbers
//! of an entry, the item by which a log has it and how it is read back, what the items of a log tell and by which hand,
//! and the text of the journal and of the replies. It knows no table; `ecp_history` hands all of it on.
//!
//! The texts are written into a buffer of fixed size, and take no memory. `laws` has what is proved of all entries: a log
//! tells one history, with one hand for each entry, and one entry more with each item; no two lines have one text.
#![tactic(auto)]

mod act;
mod act_words;
mod deed;
mod entry;
mod journal_text;
pub mod laws;
mod line;
mod name;
mod part;
mod reply;
mod reply_words;
mod text;

pub use act::Act;
pub use act_words::TEXT_ROOM;
pub use deed::Deed;
pub use entry::Entry;
pub use journal_text::{line_text, put_line};
pub use line::Line;
pub use name::Name;
pub use part::Part;
pub use reply::Reply;
pub use reply_words::{put_reply, reply_text, reply_to};
pub use text::Text;

#[cfg(test)]
mod tests;
