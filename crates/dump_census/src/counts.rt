//! What a census tells.
ghost use Rattle.std.specs.Prelude.{◌≡◌};

use std::marker::Model;

/// How many records a section has, and the sum of their values.
#[derive(Clone, Copy, Debug, PartialEq, Eq)]
pub struct SectionCount {
    pub count: u32,
    pub total: u64,
}

/// How many records have this value.
#[derive(Clone, Copy, Debug, PartialEq, Eq)]
pub struct ValueCount {
    pub value: u32,
    pub count: u32,
}

/// A census of a dump.
#[derive(Drop)]
pub struct Census {
    pub(crate) levels: Vec<u32>,
    pub(crate) unreached: u32,
    pub(crate) sections: Vec<SectionCount>,
    pub(crate) values: Vec<ValueCount>,
}

impl Model for Census {
    ghost use Rattle.dump_census.specs.Counted.{CensusCounts};

    ghost Value = { CensusCounts };

    ghost view = { λ c. record { levels = c.levels.items; unreached = c.unreached; sections = c.sections.items; values = c.values.items } };
}

impl Census {
    /// How many records each level has, from level 0 on.
    pub fn levels(&self) -> &[u32]
        ensures { result.now ≡ self.now.levels }
    {
        self.levels.as_slice()
    }

    /// How many records no path of references reaches.
    pub fn unreached(&self) -> u32
        ensures { result ≡ self.now.unreached }
    {
        self.unreached
    }

    /// What each section has, from section 0 on.
    pub fn sections(&self) -> &[SectionCount]
        ensures { result.now ≡ self.now.sections }
    {
        self.sections.as_slice()
    }

    /// Each value, in order, and how many records have it.
    pub fn values(&self) -> &[ValueCount]
        ensures { result.now ≡ self.now.values }
    {
        self.values.as_slice()
    }
}
