// What follows an item.

/// What follows an item of a body.
#[derive(Clone, Copy)]
pub enum Next {
    /// The end of the definition: the item is in tail position.
    Return,
    /// `IF` or `WHILE`.
    Flag,
    More,
}
