ghost use Rattle.bench_heaps.specs.Counts.{AreWordsInRange};

use crate::trees::running::{Counted, Failure};
use crate::trees::words::Asked;
use crate::trees::workers::{DEPTHS, depth_at, trees_at};
use std::io;
use std::rt::Runtime;

fn write_counts<R: Runtime + AllocGlobal>(
    rt: &R,
    asked: &Asked,
    counted: &Counted,
) -> io::Result<()>
    requires { AreWordsInRange asked.now }
{
    let deeper = asked.depth + 1;
    let stretched = counted.alone.stretched;
    println!(rt; "stretch tree of depth {deeper}\t check: {stretched}")?;
    for i in 0..DEPTHS {
        let depth = depth_at(i);
        if depth <= asked.depth {
            let trees = trees_at(asked.depth, i);
            let check = counted.checks[i as usize];
            println!(rt; "{trees}\t trees of depth {depth}\t check: {check}")?;
        }
    }
    let depth = asked.depth;
    let kept = counted.alone.kept;
    println!(rt; "long lived tree of depth {depth}\t check: {kept}")
}

/// Writes what a run came to, and answers the program's status.
pub fn report<R: Runtime + AllocGlobal>(
    rt: &R,
    asked: &Asked,
    came: &Result<Counted, Failure>,
) -> io::Result<u8>
    requires { AreWordsInRange asked.now }
{
    match came {
        Ok(counted) => {
            write_counts(rt, asked, counted)?;
            Ok(0)
        }
        Err(Failure::Full(worker)) => {
            println!(rt; "full section {worker}")?;
            Ok(3)
        }
        Err(Failure::Spent) => {
            println!(rt; "spent")?;
            Ok(7)
        }
        Err(Failure::OutOfMemory) => Ok(6),
    }
}
