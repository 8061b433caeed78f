//! Laws of censuses, which hold of every dump.
ghost use Rattle.dump_census.specs.Surviving.{OneCensus, SurvivorsAreReached};

/// In the dump of a play's survivors, which refers as the plain heaps do, no record is unreached.
pub fn survivors_are_reached()
    ensures { SurvivorsAreReached }
{}

/// Two censuses of one dump are the same.
pub fn one_census()
    ensures { OneCensus }
{}
