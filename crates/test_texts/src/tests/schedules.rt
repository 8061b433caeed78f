//! Schedules with their verdicts, at limits and one past them.
use super::cases::{Kind, all_hold};
use play_report::MemorySink;
use schedule_check::{ScheduleFault, Untold, read_schedule, tell_schedule};
use std::alloc::{AllocError, Global};
use std::test::Fail;

/// What is told of the source, by a sink that takes seven bytes a call. In the text `; ` stands for the end of a line.
pub fn told(alloc: Global, source: &str) -> Option<String> {
    let mut sink = MemorySink::make(alloc, 128, 7, &[]).ok()?;
    let told = tell_schedule(alloc, source.as_bytes(), &mut sink).ok()?;
    let text = str::from_utf8(sink.bytes()).ok()?.trim_end();
    let text = text.replace(alloc, "\n", "; ").ok()?;
    format!(in alloc; "{told:?}: {text}").ok()
}

/// The same of a source in which `; ` ends a line, too.
pub fn told_of(alloc: Global, source: &str) -> Option<String> {
    told(alloc, source.replace(alloc, "; ", "\n").ok()?.as_str())
}

/// A cell that is marked and popped unpublished is in use; its field isn't loaded, in line 27. An empty heap is closed
/// if a seat knows; with a reservation out nobody may tell. Seats that don't exist are refused at part 0.
const VERDICTS: &str =
    "$ gcschedule 1; shape 64 2 2 2 4 2; 1 enter_step; 1 store_phase 1; 1 read_phase
1 reserve; 1 read_count
=> Accepted: accepted 5; phase 1; empty 65; marked 0; used 0; closed no
$ gcschedule 1; shape 64 2 2 2 4 2; 1 raise_step; 1 observe; 1 next_season; 1 drop_step; 1 read_season
1 claim_block 0; 1 read_free; 1 store_new 0 0 0; 1 store_new 0 1 0; 1 store_new 0 2 0; 1 store_new 0 3 0
1 store_new 0 4 5; 1 store_new 0 5 4294967296; 1 store_root 0 1; 1 store_phase 1; 1 read_phase; 1 reserve; 1 take 0 0
1 read_length 0; 1 read_root 1 0; 1 set_mark 0; 1 push 0 0; 1 pop 0; 1 read_alloc 0; 1 read_field 0 0
=> Refused: refused line 27 rule 10 part 1
$ gcschedule 1; shape 64 2 2 2 4 2; 1 raise_step; 1 observe; 1 next_season; 1 drop_step; 1 read_season
1 claim_block 0; 1 read_free; 1 store_new 0 0 0; 1 store_new 0 1 0; 1 store_new 0 2 0; 1 store_new 0 3 0
1 store_new 0 4 5; 1 store_new 0 5 4294967296; 1 store_root 0 1; 1 store_phase 1; 1 read_phase; 1 reserve; 1 take 0 0
1 read_length 0; 1 read_root 1 0; 1 set_mark 0; 1 push 0 0; 1 pop 0; 1 read_alloc 0
=> Accepted: accepted 24; phase 1; empty 65; marked 1; used 1; closed no
$ gcschedule 1; # a stop; shape 64 2 2 2 4 2; ; 1 raise_step; 1 observe; 1 store_phase 2
=> Accepted: accepted 3; phase 2; empty 66; marked 0; used 0; closed yes
$ gcschedule 1; # a stop; shape 64 2 2 2 4 2; ; 1 raise_step; 1 observe; 1 store_phase 2=> Accepted: accepted 3; phase 2; empty 66; marked 0; used 0; closed yes
$ gcschedule 1; shape 64 2 2 2 4 2; 1 raise_step; 1 observe; 1 store_phase 2; 1 reserve
=> Accepted: accepted 4; phase 2; empty 65; marked 0; used 0; closed no
$ gcschedule 1; shape 64 2 2 2 4 2; 2 enter_step; => Refused: refused line 3 rule 25 part 0
$ gcschedule 1; shape 64 2 2 2 4 2; 4294967295 enter_step; 1 reserve; => Refused: refused line 3 rule 25 part 0
";

#[test]
fn schedules_are_judged(rt: HostRuntime) {
    all_hold(&rt, Kind::Schedule, VERDICTS);
}

/// Foreign bytes come before all lines, the header is the first line, and the sizes come before events.
const HEADS: &str = "$ gcschedule 1; \t=> Faulty: 21 NotAscii offset 13
$ gcschedule 2; shape; \x7fé=> Faulty: 21 NotAscii offset 19
$ \0=> Faulty: 21 NotAscii offset 0
$ => Faulty: 22 BadHeader
$ gcschedule 2; => Faulty: 22 BadHeader
$ ; gcschedule 1; shape 64 2 2 2 4 2; => Faulty: 22 BadHeader
$ # first; gcschedule 1; shape 64 2 2 2 4 2; => Faulty: 22 BadHeader
$ gcschedule 1 1; shape 64 2 2 2 4 2; 1 nothing; => Faulty: 22 BadHeader
$ gcschedule 01; shape 64 2 2 2 4 2; => Faulty: 22 BadHeader
$ gcschedule 1=> Faulty: 23 BadShape
$ gcschedule 1; # only notes; ;   ; => Faulty: 23 BadShape
$ gcschedule 1; 1 observe; shape 64 2 2 2 4 2; => Faulty: 23 BadShape
$ gcschedule 1; shape 64 2 2 2 4; 1 nothing; => Faulty: 23 BadShape
$ gcschedule 1; shape 64 2 2 2 4 2 2; => Faulty: 23 BadShape
$ gcschedule 1; shape 64 2 2 - 4 2; => Faulty: 23 BadShape
$ gcschedule 1; shapes 64 2 2 2 4 2; => Faulty: 23 BadShape
";

/// Lines that are no event, the first of which is told. Nothing is played: an event that isn't allowed comes before the
/// last.
const EVENTS: &str =
    "$ gcschedule 1; shape 64 2 2 2 4 2; 1 observe; 1 enter=> Faulty: 24 BadEvent line 4
$ gcschedule 1; shape 64 2 2 2 4 2; 1 observe; 1 Observe=> Faulty: 24 BadEvent line 4
$ gcschedule 1; shape 64 2 2 2 4 2; 1 observe; 1=> Faulty: 24 BadEvent line 4
$ gcschedule 1; shape 64 2 2 2 4 2; 1 observe; shape 64 2 2 2 4 2=> Faulty: 24 BadEvent line 4
$ gcschedule 1; shape 64 2 2 2 4 2; 1 observe; 1 take 0=> Faulty: 24 BadEvent line 4
$ gcschedule 1; shape 64 2 2 2 4 2; 1 observe; 1 observe 0=> Faulty: 24 BadEvent line 4
$ gcschedule 1; shape 64 2 2 2 4 2; 1 observe; -1 observe=> Faulty: 24 BadEvent line 4
$ gcschedule 1; shape 64 2 2 2 4 2; 1 observe; 4294967296 observe=> Faulty: 24 BadEvent line 4
$ gcschedule 1; shape 64 2 2 2 4 2; 1 observe; 1 take 256 0=> Faulty: 24 BadEvent line 4
$ gcschedule 1; shape 64 2 2 2 4 2; 1 observe; 1 pop 4294967296=> Faulty: 24 BadEvent line 4
$ gcschedule 1; shape 64 2 2 2 4 2; 1 observe; 1 store_root 0 18446744073709551616=> Faulty: 24 BadEvent line 4
$ gcschedule 1; shape 64 2 2 2 4 2; 1 observe; 1 push 0 4294967296=> Faulty: 24 BadEvent line 4
$ gcschedule 1; shape 64 2 2 2 4 2; 1 observe; 1 store_field 0 0 256=> Faulty: 24 BadEvent line 4
$ gcschedule 1; shape 64 2 2 2 4 2; 1 observe; 1 give 0 2=> Faulty: 24 BadEvent line 4
$ gcschedule 1; shape 64 2 2 2 4 2; 1 observe; 1 give 0 -=> Faulty: 24 BadEvent line 4
$ gcschedule 1; shape 64 2 2 2 4 2; 1 observe; 1 store_phase 6=> Faulty: 24 BadEvent line 4
$ gcschedule 1; shape 64 2 2 2 4 2; 1 observe; 1 store_phase -=> Faulty: 24 BadEvent line 4
$ gcschedule 1; shape 64 2 2 2 4 2; 1 observe; 1 store_field 0 - 0=> Faulty: 24 BadEvent line 4
$ gcschedule 1; shape 64 2 2 2 4 2; 1 observe; 1 store_field 0 0 --=> Faulty: 24 BadEvent line 4
$ gcschedule 1; shape 64 2 2 2 4 2; 1 observe; 1 pop +1=> Faulty: 24 BadEvent line 4
$ gcschedule 1; shape 64 2 2 2 4 2; 1 observe; 1 pop 0x1=> Faulty: 24 BadEvent line 4
$ gcschedule 1; shape 64 2 2 2 4 2; ; # a note; 1 observ; 1 take 300 0; => Faulty: 24 BadEvent line 5
$ gcschedule 1; shape 64 2 2 2 4 2; 1 credit; 1 nothing; => Faulty: 24 BadEvent line 4
";

const SIZES: &str =
    "$ gcschedule 1; shape 64 2 2 1 1 1=> Accepted: accepted 0; phase 0; empty 66; marked 0; used 0; closed no
$ gcschedule 1; shape 65536 1024 512 33 16 41=> Accepted: accepted 0; phase 0; empty 1088; marked 0; used 0; closed no
$ gcschedule 1; shape 000128 002 2 2 4 2=> Accepted: accepted 0; phase 0; empty 66; marked 0; used 0; closed no
$ gcschedule 1; shape 0 2 2 2 4 2=> Faulty: 23 BadShape
$ gcschedule 1; shape 65 2 2 2 4 2=> Faulty: 23 BadShape
$ gcschedule 1; shape 65600 2 2 2 4 2=> Faulty: 23 BadShape
$ gcschedule 1; shape 64 1 2 2 4 2=> Faulty: 23 BadShape
$ gcschedule 1; shape 64 1025 2 2 4 2=> Faulty: 23 BadShape
$ gcschedule 1; shape 64 2 1 2 4 2=> Faulty: 23 BadShape
$ gcschedule 1; shape 64 2 513 2 4 2=> Faulty: 23 BadShape
$ gcschedule 1; shape 64 2 2 0 4 2=> Faulty: 23 BadShape
$ gcschedule 1; shape 64 2 2 34 4 2=> Faulty: 23 BadShape
$ gcschedule 1; shape 64 2 2 2 0 2=> Faulty: 23 BadShape
$ gcschedule 1; shape 64 2 2 2 17 2=> Faulty: 23 BadShape
$ gcschedule 1; shape 64 2 2 2 4 0=> Faulty: 23 BadShape
$ gcschedule 1; shape 64 2 2 2 4 42=> Faulty: 23 BadShape
$ gcschedule 1; shape 4294967360 2 2 2 4 2=> Faulty: 23 BadShape
";

#[test]
fn the_first_fault_of_a_schedule_is_told(rt: HostRuntime) {
    for cases in [HEADS, EVENTS, SIZES] {
        all_hold(&rt, Kind::Schedule, cases);
    }
}

#[test]
fn a_sink_that_fails_is_told(rt: HostRuntime) -> Result<(), Fail> {
    let source = b"gcschedule 1\nshape 64 2 2 2 4 2\n1 enter_step\n";
    let mut sink = MemorySink::make(rt.alloc(), 128, 7, &[3])?;
    let told = tell_schedule(rt.alloc(), source, &mut sink);
    // Two calls went well: 7 bytes of the first line, and its other 4.
    assert!(rt; told == Err(Untold::Failed) && sink.bytes() == b"accepted 1\n".as_slice());
    Ok(())
}

/// Each of 59 names, with parameters at their greatest or zero, and one of them once more.
const STEPS: &str =
    "gcschedule 1; shape 64 2 2 2 4 2; 0 reserve; 0 take 255 4294967295; 0 give 4294967295 1; 0 credit
0 push 4294967295 4294967295; 0 pop 4294967295; 0 look 255 4294967295; 0 read_count; 0 read_alloc 4294967295
0 read_field 4294967295 255; 0 read_root 4294967295 255; 0 set_mark 4294967295; 0 dirty_card 4294967295
0 clear_card 4294967295; 0 read_marks 4294967295; 0 read_card 4294967295; 0 read_phase; 0 read_own 4294967295 255
0 read_value 4294967295; 0 read_ident 4294967295; 0 read_cat 255; 0 store_field 255 255 255
0 store_value 255 4294967295; 0 store_root 255 18446744073709551615; 0 claim_block 4294967295; 0 release_block
0 read_free; 0 store_new 4294967295 255 18446744073709551615; 0 publish_cells; 0 enter_step; 0 leave_step
0 raise_step; 0 observe; 0 drop_step; 0 store_phase 5; 0 split; 0 join 4294967295; 0 next_block; 0 next_of_cards
0 read_block_marks; 0 store_alloc; 0 clear_marks; 0 wipe_card 4294967295; 0 store_position 4294967295; 0 store_named
0 reset 255; 0 add_stat 255 4294967295 1; 0 read_stat 255; 0 store_length 4294967295; 0 read_length 4294967295
0 open_step; 0 join_help_step; 0 leave_help_step; 0 close_step; 0 see_help; 0 read_season; 4294967295 next_season
0 read_weak 4294967295; 0 check_card 4294967295; 0 store_field 0 0 -
";

#[test]
fn each_name_is_read(rt: HostRuntime) -> Result<(), Fail> {
    let source = STEPS.replace(rt.alloc(), "; ", "\n")?;
    let schedule = read_schedule(rt.alloc(), source.as_bytes())
        .ok()
        .ok_or("fault")?;
    assert!(rt; schedule.line(59) == Some(62) && schedule.line(60).is_none());
    Ok(())
}

/// A schedule of so many lines `0 credit`.
fn events(alloc: Global, count: u32) -> Result<Vec<u8>, AllocError> {
    let mut source = Vec::new(alloc);
    source.extend_from_slice(b"gcschedule 1\nshape 64 2 2 2 4 2\n")?;
    for _ in 0..count {
        source.extend_from_slice(b"0 credit\n")?;
    }
    Ok(source)
}

/// The first event stands in line 3.
#[test]
fn events_up_to_100000_are_read(rt: HostRuntime) -> Result<(), Fail> {
    let most = events(rt.alloc(), 100_000)?;
    let schedule = read_schedule(rt.alloc(), most.as_slice())
        .ok()
        .ok_or("fault")?;
    let (first, last) = (schedule.line(0), schedule.line(99_999));
    assert!(rt; first == Some(3) && last == Some(100_002) && schedule.line(100_000).is_none());
    let more = events(rt.alloc(), 100_001)?;
    let fault = read_schedule(rt.alloc(), more.as_slice()).err();
    assert!(rt; fault == Some(ScheduleFault::TooManyEvents { line: 100_003 }));
    Ok(())
}

/// A schedule without events, which a note makes this long.
fn long(alloc: Global, length: usize) -> Result<Vec<u8>, AllocError> {
    let mut source = Vec::new(alloc);
    source.extend_from_slice(b"gcschedule 1\nshape 64 2 2 2 4 2\n#")?;
    source.resize(length, b'.')?;
    Ok(source)
}

#[test]
fn sources_of_4194304_bytes_are_read(rt: HostRuntime) -> Result<(), Fail> {
    let most = long(rt.alloc(), 4_194_304)?;
    let more = long(rt.alloc(), 4_194_305)?;
    assert!(rt; read_schedule(rt.alloc(), most.as_slice()).is_ok());
    let fault = read_schedule(rt.alloc(), more.as_slice()).err();
    assert!(rt; fault == Some(ScheduleFault::TooLong));
    Ok(())
}
