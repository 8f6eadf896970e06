/// What an assembly answers to a full message. All but `Taken` leave it as it was.
#[derive(Clone, Copy, Debug, PartialEq, Eq)]
pub enum Accepted {
    /// The slice is there from now on.
    Taken,
    /// The message is of another attempt. Keeps the assembly's own attempt.
    Stale(u32),
    /// The message is of another repair, stripe, row, block length or slice size. Keeps the assembly's own repair.
    Foreign(u64),
    /// The slice is there already. Keeps its number.
    Repeat(u32),
}
