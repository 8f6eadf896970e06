//! The input of a run: its head, the lines of its script, and what is refused of them.

mod accepted;
mod call;
mod costs;
mod cuts;
mod defaults;
mod form;
mod forms;
mod head;
mod laws;
mod limits;
mod lines;
mod numbered;
mod parts;
mod planned;
mod refusal;
mod refusal_text;
mod schedule;
mod script;
mod session;
mod sessions;
mod setting;
mod settings;
mod subject;
mod totals;

pub use accepted::read_input;
pub use call::Call;
pub use form::Form;
pub use head::Head;
pub use laws::one_reading;
pub use planned::Planned;
pub use refusal::Refusal;
pub use refusal_text::RefusalText;
pub use session::Session;
pub use setting::Setting;
pub use subject::Subject;

/// What an accepted input asks for.
#[derive(Debug, Drop)]
pub struct Input {
    pub head: Head,
    /// The sessions that have a call, in rising order of their numbers.
    pub sessions: Vec<Session>,
    /// How many phases the calls are in, at least 1.
    pub phases: u32,
}
