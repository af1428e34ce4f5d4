// What an instruction fetches and stores.

/// The accesses of an instruction. Addresses have no bit 0.
#[derive(Clone, Copy, Debug, PartialEq, Eq)]
pub struct Accesses {
    /// The address of its fetch, where it makes one.
    pub fetch: Option<u16>,
    /// The address and the cell of its store, where it makes one.
    pub store: Option<(u16, u16)>,
}
