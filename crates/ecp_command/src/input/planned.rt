use crate::input::call::Call;

/// A call with the phase that it belongs to, counted from 0.
#[derive(Debug, Drop)]
pub struct Planned {
    pub phase: u32,
    pub call: Call,
}
