//! Reads standard input.
ghost use Rattle.schedule_states.specs.Reading.{ReadsAll};

use play_report::Source;
use std::alloc::Global;

/// Why the source's bytes are not there.
#[derive(Clone, Copy, Debug, PartialEq, Eq)]
pub enum Unread {
    /// Memory ran out.
    Memory,
    /// The source failed: its count of faults rose.
    Failed,
}

/// One byte more than the longest schedule.
const ENOUGH: usize = 4_194_305;

/// Takes bytes until there are no more, or one more than a schedule may have.
pub fn read_source<S: Source>(alloc: Global, source: &mut S) -> Result<Vec<u8>, Unread>
    ensures { ReadsAll result (S.left source.old) (S.left source.new) (S.faults source.old) (S.faults source.new) }
{
    let mut bytes = Vec::new(alloc);
    let mut buf = [0u8; 4096];
    while bytes.len() < ENOUGH {
        let room = (ENOUGH - bytes.len()).min(4096);
        let piece = &mut buf[..room];
        match source.read(piece) {
            Err(_) => return Err(Unread::Failed),
            Ok(n) => {
                if n == 0 {
                    return Ok(bytes);
                }
                if bytes.extend_from_slice(&piece[..n]).is_err() {
                    return Err(Unread::Memory);
                }
            }
        }
    }
    Ok(bytes)
}
