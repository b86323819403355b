//! What became of a packet.

/// What became of a packet that was sent.
#[derive(Clone, Copy, PartialEq, Eq)]
pub enum Fate {
    /// Neither acknowledged nor found lost, and the keys of its space are there.
    Open,
    /// The last event found it lost (RFC 9002, section 6.1); the next has to declare it.
    Owed,
    /// It was declared lost.
    DeclaredLost,
    /// It was acknowledged, also where it was declared lost before.
    Acknowledged,
    /// The keys of its space were discarded while it was not acknowledged (RFC 9002, section 6.4).
    Discarded,
}
