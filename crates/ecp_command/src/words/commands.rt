/// What the program is asked to do.
#[derive(Clone, Copy, Debug, PartialEq, Eq)]
pub enum Command<'a> {
    /// Run a script over stores in memory.
    Run,
    /// Run a script over stores in the folder of this path.
    RunDir(&'a str),
    /// Rebuild row `row` of the one stripe that the input is, under an (n, k) code.
    Mend { k: u32, n: u32, row: u32 },
    /// Count the calls of a script.
    Check,
    /// Run the script made from this seed.
    Soak(u32),
}
