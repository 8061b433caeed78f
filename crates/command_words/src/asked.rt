use play_end::Options;

/// A command with its options.
#[derive(Clone, Copy, Debug, PartialEq, Eq)]
pub enum Asked {
    /// Plays the script of the source, as these options say.
    Run(Options),
    /// Writes the generated script of this number, with this many lines a warehouse.
    Gen(u32, u32),
    /// Plays the generated script of this number and size, and writes five lines.
    Load(Options, u32, u32),
    /// Writes the script of the source in the second version of the language.
    Convert,
    /// Checks the schedule of the source.
    Schedule,
    /// Plays the script of the source, as these options say, and writes the dump of the heap at its end.
    Dump(Options),
    /// Writes the records of the source's dump.
    Undump,
    /// Writes the census of the source's dump.
    Census,
    /// Plays the scripts of the source's batch on so many runners.
    Batch(Options, u32),
}
