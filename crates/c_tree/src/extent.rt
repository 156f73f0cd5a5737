//! Where the constructs of a source stand.

use debug_records::Spot;

/// Where a construct stands, from its first token to its last.
#[derive(Clone, Copy, PartialEq, Eq)]
pub struct Extent {
    /// Where its first token begins.
    pub first: Spot,
    /// The offset of its last token's first byte.
    pub last: u32,
}

/// A name, and where it stands.
#[derive(Drop)]
pub struct Identifier {
    pub name: String,
    pub spot: Spot,
}
