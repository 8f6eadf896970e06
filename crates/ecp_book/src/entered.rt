ghost use Rattle.std.specs.Prelude.{ℕ, List};

/// Values that can be entered into a log.
pub trait Entered {
    /// The item of each value: a list of whole numbers that contracts see and that nobody stores.
    ghost item: { Self → List ℕ };
}
