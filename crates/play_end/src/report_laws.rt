// Laws over reports and their texts: each is the contract of a function that does nothing.
ghost use Rattle.play_end.specs.ReportLaws.{CellsAreFree, OneLoadText, OneReport, OneText, SurvivorsExist};

/// Two reports of one script differ only in the places of objects, however many cells each was played in.
pub fn one_report()
    ensures { OneReport }
{}

/// Each script has a list of survivors to report.
#[tactic(auto, using(crate::proofs::Existing::survivors_exist))]
pub fn survivors_exist()
    ensures { SurvivorsExist }
{}

/// A script has one text without places.
pub fn one_text()
    ensures { OneText }
{}

/// A script has one text that counts what a play did.
pub fn one_load_text()
    ensures { OneLoadText }
{}

/// If places are legal, a new object never takes the cell of one that its section can reach, or that a section can
/// reach which has no turn then: only the warehouses of one season may be ordered freely.
pub fn cells_are_free()
    ensures { CellsAreFree }
{}
