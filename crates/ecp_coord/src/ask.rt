/// What a plan is asked for.
#[derive(Clone, Copy)]
pub enum Ask<'a> {
    /// The bytes of a block of a file, by its name and its number in the file.
    Read { name: &'a str, index: u32 },
    /// The digest of those bytes.
    Sum { name: &'a str, index: u32 },
    /// The bytes of a block of the file of a `cat`, by its number in the file: part `index + 1` of the call.
    CatPart { index: u32 },
}
