// Laws: each is the contract of a function that does nothing.
ghost use Rattle.gc_script.specs.Script.{ScriptsMean};

/// The sections of a script that has no fault are what its lines mean, line by line.
#[tactic(auto, using(crate::proofs::Meaning::meaning_rules))]
pub fn scripts_mean()
    ensures { ScriptsMean }
{}
