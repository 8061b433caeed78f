//! A packet in a seat's hand.
ghost use Rattle.std.specs.Prelude.{◌≡◌};

/// A packet that the seat took. It can't be dropped: `give` spends it.
pub struct Held {
    pub(crate) packet: u32,
    pub(crate) length: u32,
}

impl Held {
    /// Its number.
    pub fn packet(&self) -> u32
        ensures { result ≡ self.now.packet }
    {
        self.packet
    }

    /// How many cells are in it, at most the shape's entries.
    pub fn length(&self) -> u32
        ensures { result ≡ self.now.length }
    {
        self.length
    }
}

/// There is no room for another cell.
#[derive(Clone, Copy, Debug, PartialEq, Eq, Drop)]
pub struct PacketFull;
