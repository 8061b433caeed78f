//! Reads all of a source.
ghost use Rattle.gc_play.specs.Reading.{ReadsEnough, TakesAtMost};

use play_report::Source;
use std::alloc::Global;

/// Why the source's bytes are not there.
#[derive(Clone, Copy, Debug, PartialEq, Eq)]
pub enum Unread {
    Memory,
    Failed,
}

/// One byte more than the longest script.
pub const SCRIPT: usize = 1_048_577;

/// One byte more than the longest schedule.
pub const SCHEDULE: usize = 4_194_305;

/// One byte more than the longest dump.
pub const DUMP: usize = 4_984_981;

/// One byte more than the longest batch.
pub const BATCH: usize = 16_777_217;

/// Takes bytes until there are no more, or `enough` of them, more than the input may have.
pub fn read_source<S: Source>(
    alloc: Global,
    source: &mut S,
    enough: usize,
) -> Result<Vec<u8>, Unread>
    ensures reads { ReadsEnough enough result (S.left source.old) (S.left source.new) (S.faults source.old) (S.faults source.new) }
    ensures most { TakesAtMost enough (S.left source.old) (S.left source.new) }
{
    let mut bytes = Vec::new(alloc);
    let mut buf = [0u8; 4096];
    while bytes.len() < enough {
        let room = (enough - bytes.len()).min(4096);
        let piece = &mut buf[..room];
        match source.read(piece) {
            Err(_) => return Err(Unread::Failed),
            Ok(n) => {
                if n == 0 {
                    return Ok(bytes);
                }
                if bytes.extend_from_slice(&piece[..n]).is_err() {
                    return Err(Unread::Memory);
                }
            }
        }
    }
    Ok(bytes)
}
