//! Whether a schedule is too large to be drawn.
ghost use Rattle.std.specs.Prelude.{◌≡◌};
ghost use Rattle.play_report.specs.Causes.{WritesTo};
ghost use Rattle.schedule_states.specs.Excesses.{excess_of, excess_text};

use crate::row::write_row;
use play_report::{Failed, Sink};
use schedule_check::Schedule;

/// The first size of a schedule, in this order, that is past its limit.
#[derive(Clone, Copy, Debug, PartialEq, Eq)]
pub enum Excess {
    /// More than 128 cells.
    Cells(u32),
    /// More than 8 packets.
    Packets(u32),
    /// More than 16 entries of a packet.
    Entries(u32),
    /// More than 8 sections.
    Sections(u32),
    /// More than 8 fields of an object.
    Fields(u32),
    /// More than 12 seats at the start.
    Seats(u32),
    /// More than 2,000 events.
    Events(u32),
}

/// The first size that is past its limit.
pub fn find_excess(schedule: &Schedule) -> Option<Excess>
    ensures { result ≡ excess_of schedule.now }
{
    let shape = schedule.shape();
    let events = schedule.lines().len() as u32;
    if shape.cells > 128 {
        Some(Excess::Cells(shape.cells))
    } else if shape.packets > 8 {
        Some(Excess::Packets(shape.packets))
    } else if shape.entries > 16 {
        Some(Excess::Entries(shape.entries))
    } else if shape.sections > 8 {
        Some(Excess::Sections(shape.sections))
    } else if shape.fields > 8 {
        Some(Excess::Fields(shape.fields))
    } else if schedule.seats() > 12 {
        Some(Excess::Seats(schedule.seats()))
    } else if events > 2000 {
        Some(Excess::Events(events))
    } else {
        None
    }
}

/// Writes which size is too large, the number, and the limit.
pub fn write_excess<K: Sink>(excess: Excess, sink: &mut K) -> Result<(), Failed>
    ensures { WritesTo K.written K.faults result sink.old sink.new (excess_text excess) }
{
    match excess {
        Excess::Cells(n) => write_row("too many cells", &[u64::from(n), 128], sink),
        Excess::Packets(n) => write_row("too many packets", &[u64::from(n), 8], sink),
        Excess::Entries(n) => write_row("too many entries", &[u64::from(n), 16], sink),
        Excess::Sections(n) => write_row("too many sections", &[u64::from(n), 8], sink),
        Excess::Fields(n) => write_row("too many fields", &[u64::from(n), 8], sink),
        Excess::Seats(n) => write_row("too many seats", &[u64::from(n), 12], sink),
        Excess::Events(n) => write_row("too many events", &[u64::from(n), 2000], sink),
    }
}
