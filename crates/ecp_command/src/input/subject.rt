use crate::input::setting::Setting;

/// What the words of a refusal are about.
#[derive(Clone, Copy, Debug, PartialEq, Eq)]
pub enum Subject {
    /// They stand alone.
    Nothing,
    /// A setting, whose key stands behind them and a space.
    Key(Setting),
    /// A line, whose number stands behind them and a space.
    Line(u32),
}
