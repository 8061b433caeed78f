//! A play of a script on many threads over one heap that is collected beside them, and the command `run`.
//!
//! # How a play goes
//!
//! 1. All memory is taken: the heap, with a seat for each section and each tracer, the players, and room for the
//!    report. Worker j plays the warehouses with `(w - 1) mod workers = j`, in order (`muster`).
//! 2. Season by season the catalogue plays its part, and its seat moves the season on. Then all workers and tracers run
//!    side by side (`run_threads`). A thread that can't be started is run there after the others; a tracer that runs so
//!    late reads at once that all parts were played.
//! 3. After the last season the catalogue's seat makes the last stop, in which an exact cycle ends. The seats are
//!    gathered in order, and the heap is closed: the report has what the players had, and the objects in the words of
//!    the heap.
//! 4. If a part or a stop found the heap full, nothing more is played. The heap is closed without a collection, and its
//!    words say which section found it and how far each came.
//!
//! # Why the report follows
//!
//! `PlayedTo` and `StoppedIn` (`specs/Standing.antt`) say that a seat's view is what the plain run says. No other
//! thread has the seat: so it is enough that each thread says so of the seats it borrowed, and that fork and join hand
//! them back. `IsCrew` says it of all seats between two seasons, `IsHaltedFirst` and `IsHaltedLater` of a play that
//! stopped in the catalogue's turn or later (`specs/Crews.antt`). From this the closing of `play_end` gives the report,
//! or the positions.
//!
//! Only the catalogue's seat moves the season word on, 2z - 1 times up to the warehouses' turn of season z; an even
//! number at the end tells that no section plays any more.
//!
//! `specs/Turns.antt` says what a tracer's turn does and which is the last.
//!
//! # The command `run`
//!
//! Of `play` the command knows only `PlayAnswers` of `play_end`. What the commands of `play_words` share with it is
//! here, too: how a source is read (`source`), how a command ends (`status`, `settling`), how a fault or a stop is told
//! (`fault`, `stopped`), and the words of the command line (`words`).
#![tactic(auto)]

mod crew;
mod fault;
mod gate;
mod gathering;
mod limits;
mod marking;
mod playing;
mod run;
mod season;
mod settling;
mod source;
mod status;
mod stopped;
mod tracers;
mod words;
mod workers;

pub use fault::tell_fault;
pub use gate::OpenGate;
pub use play_end::{Options, PlayError};
pub use playing::{play, play_final};
pub use run::{play_bytes, play_source};
pub use settling::settle;
pub use source::{BATCH, DUMP, SCHEDULE, SCRIPT, Unread, read_source};
pub use status::Status;
pub use stopped::tell_stop;
pub use tracers::run_tracer;
pub use warehouse::Gate;
pub use words::given_words;
