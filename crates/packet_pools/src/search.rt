//! How far a call has looked for a packet with room.
ghost use Rattle.std.specs.Prelude.{◌≡◌};

/// What a call has seen of the packets with room. A packet that was missed, found full or filled in this call isn't
/// looked for again, so all searches of a call together take few steps.
#[derive(Clone, Copy, Debug, PartialEq, Eq, Drop)]
pub enum Search {
    /// Some packet may have room.
    Open,
    /// The empty and the low pool had none, and neither had the high pool before this packet.
    Tried(u32),
}

impl Search {
    /// That of a call that begins.
    pub fn open() -> Search
        ensures { result ≡ Search.Open }
    {
        Search::Open
    }
}
