//! How the program ends.
ghost use Rattle.std.specs.Prelude.{◌≡◌};
ghost use Rattle.gc_play.specs.Ending.{number_of_status, status_after_write};

use play_report::Failed;

/// How the program ends.
#[derive(Clone, Copy, Debug, PartialEq, Eq)]
pub enum Status {
    /// All of the command's text is written.
    Done,
    /// The words ask for nothing.
    Usage,
    /// The input has a fault.
    InputFault,
    /// The reachable objects filled all cells.
    Full,
    /// The source failed.
    ReadFault,
    /// The sink failed.
    WriteFault,
    /// Memory ran out.
    Memory,
    /// The schedule is refused.
    Refused,
}

impl Status {
    /// Its number, 0 to 7 in the order above.
    pub fn code(self) -> u8
        ensures { result ≡ number_of_status self }
    {
        match self {
            Status::Done => 0,
            Status::Usage => 1,
            Status::InputFault => 2,
            Status::Full => 3,
            Status::ReadFault => 4,
            Status::WriteFault => 5,
            Status::Memory => 6,
            Status::Refused => 7,
        }
    }

    /// The status after its text was handed to the sink, which may have failed.
    pub fn after(self, written: Result<(), Failed>) -> Status
        ensures { result ≡ status_after_write self written }
    {
        match written {
            Ok(()) => self,
            Err(_) => Status::WriteFault,
        }
    }
}
