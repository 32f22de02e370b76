//! What each side keeps of a chain.

/// What the driver keeps of a chain, by its id: its number, and how many descriptors it has.
#[derive(Clone, Copy, Debug)]
pub struct ChainRecord {
    pub number: u64,
    pub count: u16,
}

/// What the device keeps of a chain that it took.
#[derive(Clone, Copy, Debug)]
pub struct TakenChain {
    pub number: u64,
    pub id: u16,
    pub count: u16,
}
