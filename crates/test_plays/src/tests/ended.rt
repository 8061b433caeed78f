use gc_play::{OpenGate, play_final};
use gc_script::read;
use mark_core::Phase;
use play_end::{Options, USUAL};
use std::test::Fail;

/// Three objects stay reachable, and one of each warehouse doesn't.
const SCRIPT: &[u8] =
    b"gcscript 1\nwarehouse\nnew a 7\nnew b 8\nset a 0 b\nnew b 6\nnil b\nwarehouse\nnew c 5\nnew c 9\n";

fn at(words: &[u64], place: usize) -> u64 {
    words.get(place).copied().unwrap_or(0)
}

fn cell_of(word: u64) -> usize {
    word.saturating_sub(1) as usize
}

/// 64 cells' allocation bits stand in one word. A section has 32 variables, and a cell 4 fields.
#[test]
fn words_at_the_end(rt: HostRuntime) -> Result<(), Fail> {
    let options = Options {
        cells: 64,
        workers: 2,
        ..USUAL
    };
    let script = read(rt.alloc(), SCRIPT)?;
    let Ok((report, words)) = play_final(&rt, rt.alloc(), &script, &options, &OpenGate) else {
        panic!(rt; "no end")
    };
    assert_eq!(rt; report.survivors.len(), 3);
    assert!(rt; words.phase == Phase::Idle);
    assert_eq!(rt; words.positions.as_slice(), [0, 5, 2].as_slice());
    assert_eq!(rt; at(words.alloc.as_slice(), 0).count_ones(), 3);
    let head = cell_of(at(words.roots.as_slice(), 32));
    let next = cell_of(at(words.fields.as_slice(), head.saturating_mul(4)));
    let last = cell_of(at(words.roots.as_slice(), 64));
    let values = words.values.as_slice();
    assert_eq!(rt;
        [at(values, head), at(values, next), at(values, last)],
        [7, 8, 9]
    );
    Ok(())
}
