/// What a push answers.
#[derive(Drop)]
pub enum Pushed<T> {
    /// The item is on the link.
    Ok,
    /// There is no room. The item comes back.
    Full(T),
}
