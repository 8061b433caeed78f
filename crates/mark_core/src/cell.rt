//! A cell, and what identifies the object in it.
ghost use Rattle.std.specs.Prelude.{◌≡◌, ℕ};

use std::marker::Model;

/// One cell of the heap, by its number. A reference to it is the number plus 1, and nil is 0.
#[derive(Clone, Copy, Debug, PartialEq, Eq, Drop)]
pub struct Cell(u32);

impl Model for Cell {
    ghost Value = { ℕ };

    ghost view = { λ c. c.0 };

    ghost inverse = { λ n. record { 0 = n } };
}

impl Cell {
    /// The cell with this number.
    pub fn make(number: u32) -> Cell
        ensures { result ≡ number }
    {
        Cell(number)
    }

    /// Its number.
    pub fn number(&self) -> u32
        ensures { result ≡ self.now }
    {
        self.0
    }
}

/// Which object it is: the section whose seat made it, and how many that seat had made before.
#[derive(Clone, Copy, Debug, PartialEq, Eq)]
pub struct Identity {
    /// The section, 0 for the catalogue.
    pub section: u32,
    /// The number among the section's objects, from 0 on.
    pub number: u32,
}
