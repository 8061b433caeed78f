//! Each part of each condition of docs/STEPS.md that a schedule can break, broken once.
//!
//! A table is a schedule behind its first line, whose lines `; ` or a line's end ends. A line `EVENT => RULE PART` is
//! tried after the events before it, and refused by that part of that rule; all others are allowed.
//!
//! These parts aren't here:
//! - Kinds 50 to 53, 56 and 57, and the slots of kind 10 have no name in a schedule: `test_core` tries them, and a
//! section that has made all that it may.
//! - Kinds 6 part 4, 11 part 2 and 26 part 3 hold of any seat that comes so far: it has given up before what it had in
//! hand, and has no work in hand without a packet.
//! - Kind 29 part 4: in Idle and Full a seat that has stopped the world is alone.
//! - Kind 32 part 2: a seat outside has nothing.
//! - Kinds 8, 16, 28 and 47 ask nothing.
use super::schedules::told;
use std::alloc::{AllocError, Global};
use std::test::Fail;

/// Of these four seats, the first two have a section, and none is in the world.
const STARTING: &str =
    "shape 128 6 2 2 2 4; 4 enter_step => 25 0; 4 read_count => 8 0; 2 reserve => 1 1
2 take 0 0 => 2 1; 2 give 0 0 => 3 1; 2 credit => 4 1; 2 push 0 0 => 5 1; 2 pop 0 => 6 1; 2 look 4 0 => 7 1
2 look 0 1 => 7 1; 2 store_length 0 => 41 1; 2 read_length 0 => 42 1; 2 read_alloc 0 => 9 1; 2 read_field 0 0 => 10 1
2 read_root 1 0 => 10 1; 2 set_mark 0 => 11 1; 2 dirty_card 0 => 12 1; 2 clear_card 0 => 13 1; 2 read_marks 0 => 14 1
2 read_card 8 => 15 1; 2 check_card 0 => 55 1; 1 read_own 0 0 => 17 1; 1 read_value 0 => 17 1; 1 read_ident 0 => 17 1
1 read_cat 0 => 17 1; 1 read_weak 0 => 54 1
1 store_field 0 0 - => 18 1; 1 store_value 0 5 => 18 1; 1 store_root 0 0 => 19 1; 1 claim_block 2 => 20 1
1 claim_block 0 => 20 2; 1 release_block => 21 1; 1 read_free => 22 1; 1 store_new 0 0 0 => 23 1
1 publish_cells => 24 1; 1 leave_step => 26 1; 1 drop_step => 29 1; 1 store_phase 0 => 30 1; 1 store_phase 3 => 30 1
1 store_phase 4 => 30 1; 1 store_phase 1 => 30 2; 1 store_phase 2 => 30 2; 1 store_phase 5 => 30 2; 1 split => 31 1
1 join 1 => 32 1; 1 join 4 => 32 1; 2 next_block => 33 1; 2 next_of_cards => 33 1; 2 read_block_marks => 34 1
2 store_alloc => 35 1; 2 clear_marks => 36 1; 2 wipe_card 0 => 37 1; 2 store_position 0 => 38 1
1 store_position 0 => 38 2; 1 store_named => 38 1; 1 reset 0 => 38 1; 1 add_stat 2 1 0 => 39 1; 1 read_stat 10 => 40 1
1 open_step => 43 1; 1 leave_help_step => 45 1; 1 close_step => 46 1; 1 read_season => 48 1; 1 next_season => 49 1
0 raise_step; 0 raise_step => 27 1; 0 enter_step => 25 1; 0 join_help_step => 44 1; 0 drop_step => 29 1
0 split => 31 1; 1 join 0 => 32 1; 1 join_help_step; 1 join_help_step => 44 1; 1 enter_step => 25 1
1 raise_step => 27 1; 1 leave_help_step; 0 observe; 0 next_season; 0 drop_step; 0 enter_step => 25 1
0 raise_step => 27 1; 0 join_help_step => 44 1; 1 join 0 => 32 1; 0 leave_step; 1 join 2; 1 join 2 => 32 1
2 enter_step => 25 0
";

/// There is room for 41 seats.
const MANY: &str = "shape 64 2 2 2 1 40; 0 split; 0 split => 31 1
";

/// Seat 1 enters, makes two cells in block 0, and stores in one once they are published.
const MAKING: &str =
    "shape 128 6 2 2 2 4; 1 enter_step; 1 read_season; 1 store_root 0 0 => 19 1; 1 leave_step
0 raise_step; 0 observe; 0 next_season; 0 drop_step; 0 leave_step; 1 enter_step; 1 store_root 0 0 => 19 1
1 read_season; 1 reserve => 1 1; 1 read_own 128 0 => 17 1; 1 read_own 0 2 => 17 1; 1 read_own 0 0 => 17 2
1 read_value 0 => 17 2; 1 read_ident 0 => 17 2; 1 read_cat 32 => 17 1; 1 read_weak 128 => 54 1
1 store_field 0 0 - => 18 2
1 store_value 0 5 => 18 2; 1 store_root 32 0 => 19 1; 1 store_root 0 1 => 19 2; 1 store_new 0 0 0 => 23 2
1 claim_block 0; 1 claim_block 1 => 20 1; 1 leave_step => 26 4; 1 store_new 0 0 0 => 23 2; 1 read_free
1 read_free => 22 1; 1 store_new 0 4 0 => 23 1; 1 store_new 128 0 0 => 23 1; 1 store_new 64 0 0 => 23 2
1 store_new 0 1 0 => 23 2; 1 store_new 0 0 1 => 23 3; 1 store_new 0 0 0; 1 store_root 0 0 => 19 3
1 release_block => 21 2; 1 publish_cells => 24 2; 1 store_new 1 0 0 => 23 2; 1 store_new 0 2 5 => 23 2
1 store_new 0 1 0; 1 store_new 0 2 4294967296 => 23 3; 1 store_new 0 2 5; 1 store_new 0 3 5 => 23 3
1 store_new 0 3 4294967297 => 23 3; 1 store_new 0 3 4294967296; 1 release_block => 21 2; 1 store_root 1 2 => 19 2
1 store_root 0 1; 1 store_new 1 0 0; 1 store_new 1 1 0; 1 store_new 1 2 6; 1 store_new 1 3 4294967297
1 store_root 1 2; 1 store_field 32 0 1 => 18 1; 1 store_field 0 2 1 => 18 1; 1 store_field 0 0 32 => 18 1
1 store_field 2 0 1 => 18 2; 1 publish_cells; 1 release_block; 1 store_field 0 0 1; 1 store_field 0 1 - => 18 3
1 store_value 0 7 => 18 3; 1 store_root 1 0 => 19 3; 1 leave_step => 26 4; 1 claim_block 1; 1 publish_cells => 24 2
1 release_block; 1 dirty_card 0; 1 read_own 0 0; 1 leave_step => 26 4; 1 store_root 2 0; 1 leave_step
";

/// In its own turn the catalogue reads no variable as another section does; in the other turn no warehouse stores in
/// its object.
const CATALOGUE: &str =
    "shape 64 2 2 2 1 2; 0 enter_step; 0 read_season; 0 read_cat 0 => 17 2; 0 claim_block 0
0 read_free; 0 store_new 0 0 0; 0 store_new 0 1 5; 0 store_new 0 2 0; 0 store_root 0 1; 0 publish_cells
0 release_block; 0 leave_step; 0 raise_step; 0 observe; 0 next_season; 0 drop_step; 0 read_season
0 store_root 0 0 => 19 1; 0 leave_step; 1 enter_step; 1 read_season; 1 read_cat 0; 1 store_root 0 1
1 store_field 0 0 - => 18 2; 1 store_value 0 6 => 18 2; 1 read_value 0; 1 leave_step
";

/// Variable 0 of seat 1 names cell 0, which refers to cell 1, and variable 1 names that. Seat 2 has no section.
const MARKING: &str =
    "shape 128 6 2 2 2 4; 0 raise_step; 0 observe; 0 next_season; 0 drop_step; 0 leave_step
1 enter_step; 1 read_season; 1 claim_block 0; 1 read_free; 1 store_new 0 0 0; 1 store_new 0 1 0; 1 store_new 0 2 5
1 store_new 0 3 4294967296; 1 store_root 0 1; 1 store_new 1 0 0; 1 store_new 1 1 0; 1 store_new 1 2 6
1 store_new 1 3 4294967297; 1 store_root 1 2; 1 store_field 0 0 1; 1 publish_cells; 1 store_phase 1; 2 enter_step
2 claim_block 1 => 20 2; 2 store_position 0 => 38 1; 2 add_stat 1 1 0 => 39 1; 2 add_stat 7 1 0 => 39 1
2 add_stat 6 1 0 => 39 2; 1 add_stat 6 2 0 => 39 2; 1 add_stat 6 1 1 => 39 2; 2 read_alloc 2 => 9 1
2 dirty_card 8 => 12 1; 2 read_marks 2 => 14 1; 2 reserve => 1 1; 2 take 0 0 => 2 1; 2 next_of_cards => 33 1
2 read_phase; 2 take 4 0 => 2 1; 2 take 0 6 => 2 1; 2 take 0 0 => 2 3; 2 read_root 1 0 => 10 1; 2 clear_card 0 => 13 1
2 next_of_cards => 33 2; 2 read_stat 0; 2 next_of_cards; 2 next_of_cards => 33 2; 2 next_block => 33 1
2 wipe_card 0 => 37 1; 2 reserve; 2 reserve => 1 2; 2 leave_step => 26 2; 2 take 0 0; 2 take 0 0 => 2 2
2 give 0 0 => 3 2; 2 store_length 0 => 41 2; 2 push 0 0 => 5 2; 2 pop 0 => 6 2; 2 leave_step => 26 2; 2 read_length 0
2 read_length 0 => 42 2; 2 pop 0 => 6 2; 2 give 0 1 => 3 2; 2 push 0 128 => 5 1; 2 push 0 0 => 5 3
2 read_root 2 0 => 10 1; 2 read_root 1 32 => 10 1; 2 set_mark 0 => 11 1; 2 clear_card 8 => 13 1
2 read_field 0 0 => 10 1; 2 read_root 1 0; 2 read_root 1 1 => 10 2; 2 clear_card 0 => 13 2; 2 give 0 0 => 3 3
2 set_mark 1 => 11 1; 2 set_mark 0; 2 give 0 0 => 3 3; 2 push 0 1 => 5 3; 2 push 0 0; 2 give 0 0 => 3 5
2 read_root 1 1; 2 set_mark 1; 2 push 0 1; 2 push 0 0 => 5 2; 2 pop 0; 2 pop 0 => 6 3; 2 push 0 1 => 5 3
2 read_field 1 0 => 10 1; 2 read_alloc 0; 2 read_field 1 1 => 10 1; 2 read_field 0 0 => 10 1; 2 pop 0 => 6 3
2 read_field 1 0; 2 read_field 1 1; 2 read_field 1 2 => 10 1; 2 pop 0; 2 read_alloc 0; 2 read_field 0 0
2 read_field 0 1 => 10 2; 2 set_mark 1; 2 read_field 0 1; 2 pop 0 => 6 2; 2 store_length 0; 2 reserve
2 give 0 0 => 3 4; 2 take 0 1; 2 reserve; 2 take 0 2; 2 reserve; 2 take 0 3; 2 reserve; 2 take 0 4 => 2 4; 2 credit
2 credit => 4 1; 2 read_length 1; 2 give 0 0; 2 reserve => 1 2; 2 give 1 0 => 3 4; 2 credit; 2 give 1 0; 2 credit
2 read_length 2; 2 give 2 0; 2 credit; 2 read_length 3; 2 give 3 0; 2 leave_step => 26 2; 2 credit; 2 leave_step
";

/// Seat 1 stops the world, and cleans a card in the drain; seat 2 helps.
const STOPPING: &str =
    "shape 128 6 2 2 2 4; 1 raise_step; 1 observe; 1 store_phase 0 => 30 1; 1 store_phase 5 => 30 2
1 store_phase 1 => 30 2; 1 open_step => 43 2; 1 reset 6 => 38 1; 1 store_phase 2; 1 store_phase 2 => 30 1
1 store_phase 5 => 30 1; 1 next_season => 49 2; 1 claim_block 0 => 20 3; 1 store_named => 38 1
1 store_phase 0 => 30 1; 1 drop_step => 29 3; 1 dirty_card 0; 1 store_phase 3 => 30 2; 1 reserve; 1 drop_step => 29 2
1 store_phase 4 => 30 2; 1 take 0 0; 1 read_length 0; 1 clear_card 0; 1 drop_step => 29 2; 1 read_marks 0
1 store_length 0; 1 give 0 0; 1 credit; 1 wipe_card 0 => 37 1; 1 next_block => 33 1; 1 open_step; 1 open_step => 43 1
1 drop_step => 29 3; 1 reset 0 => 38 1; 2 join_help_step; 2 join_help_step => 44 1; 2 enter_step => 25 1
2 raise_step => 27 1; 2 reserve => 1 1; 2 read_phase; 2 close_step => 46 1; 2 read_season => 48 1; 2 reserve
2 leave_help_step => 45 2; 2 credit; 1 close_step; 1 close_step => 46 1; 1 store_phase 3 => 30 3; 1 see_help
1 store_phase 3 => 30 3; 2 leave_help_step; 2 leave_help_step => 45 1; 1 see_help; 1 store_phase 3; 1 reserve => 1 1
1 reset 0 => 38 1; 1 wipe_card 8 => 37 1; 1 wipe_card 0; 1 store_phase 0 => 30 2; 1 next_block => 33 3; 1 read_stat 1
1 next_block; 1 next_block => 33 2; 1 store_alloc => 35 2; 1 clear_marks => 36 2; 1 read_alloc 0
1 store_alloc => 35 2; 1 read_block_marks; 1 store_alloc; 1 store_alloc => 35 2; 1 clear_marks; 1 clear_marks => 36 1
1 next_block => 33 3; 1 read_block_marks => 34 1; 1 open_step; 2 join_help_step; 2 next_block => 33 1; 2 read_phase
2 read_stat 1; 2 next_block; 2 leave_help_step => 45 3; 2 read_alloc 1; 2 read_block_marks; 2 store_alloc
2 clear_marks; 2 leave_help_step; 1 close_step; 1 store_phase 0 => 30 3; 1 see_help; 1 store_phase 0
1 store_phase 5 => 30 2; 1 drop_step; 1 leave_step
";

/// In Clear marks aren't read and no word is stored. The counter of blocks is at its end afterwards.
const CLEARING: &str =
    "shape 64 2 2 2 1 2; 1 raise_step; 1 observe; 1 store_phase 2; 1 store_phase 4
1 open_step => 43 2; 1 store_phase 3 => 30 1; 1 store_phase 2 => 30 2; 1 reserve => 1 1; 1 drop_step => 29 3
1 read_stat 1; 1 next_block; 1 read_block_marks => 34 1; 1 store_alloc => 35 1; 1 store_phase 2 => 30 2
1 drop_step => 29 2; 1 clear_marks; 1 reset 1 => 38 1; 1 store_phase 2; 1 store_phase 3 => 30 2
1 store_phase 4 => 30 2; 1 reset 1; 1 store_phase 3
";

/// A root names a cell that isn't marked.
const UNMARKED: &str =
    "shape 64 2 2 2 1 2; 0 raise_step; 0 observe; 0 next_season; 0 drop_step; 0 leave_step
1 enter_step; 1 read_season; 1 claim_block 0; 1 read_free; 1 store_new 0 0 0; 1 store_new 0 1 5
1 store_new 0 2 4294967296; 1 store_root 0 1; 1 publish_cells; 1 release_block; 1 leave_step; 1 raise_step; 1 observe
1 store_phase 2; 1 store_phase 3 => 30 2; 1 store_phase 4
";

fn add(source: &mut String, line: &str) -> Result<(), AllocError> {
    source.push_str(line)?;
    source.push('\n')
}

/// Whether the event behind the source is refused by the rule and the part.
fn is_refused(alloc: Global, source: &str, line: u32, event: &str, broken: &str) -> Option<bool> {
    let (rule, part) = broken.split_once(' ')?;
    let whole = format!(in alloc; "{source}{event}\n").ok()?;
    let wanted = format!(in alloc; "Refused: refused line {line} rule {rule} part {part}").ok()?;
    Some(told(alloc, whole.as_str())? == wanted)
}

/// The first line that isn't answered so, or the empty one.
fn first_unlike(alloc: Global, table: &str) -> Option<String> {
    let lines = table.replace(alloc, "; ", "\n").ok()?;
    let mut source = "gcschedule 1\n".to_string(alloc).ok()?;
    let mut next = 2u32;
    for line in lines.as_str().lines() {
        match line.split_once(" => ") {
            None => {
                add(&mut source, line).ok()?;
                next = next.saturating_add(1);
            }
            Some((event, broken)) => {
                if !is_refused(alloc, source.as_str(), next, event, broken)? {
                    return line.to_string(alloc).ok();
                }
            }
        }
    }
    let told = told(alloc, source.as_str())?;
    let unlike = if told.as_str().starts_with("Accepted") {
        ""
    } else {
        "the events"
    };
    unlike.to_string(alloc).ok()
}

#[test]
fn each_part_of_a_condition_is_told(rt: HostRuntime) -> Result<(), Fail> {
    for table in [
        STARTING, MANY, MAKING, CATALOGUE, MARKING, STOPPING, CLEARING, UNMARKED,
    ] {
        let unlike = first_unlike(rt.alloc(), table).ok_or("memory")?;
        assert!(rt; unlike.as_str().is_empty(), "{unlike}");
    }
    Ok(())
}

/// A heap has 64 seasons of two turns.
#[test]
fn the_season_after_the_last_is_refused(rt: HostRuntime) -> Result<(), Fail> {
    let alloc = rt.alloc();
    let mut table = "shape 64 2 2 2 1 2; 1 raise_step; 1 observe\n".to_string(alloc)?;
    for _turn in 0..128u32 {
        add(&mut table, "1 next_season")?;
    }
    add(&mut table, "1 next_season => 49 3")?;
    let unlike = first_unlike(alloc, table.as_str()).ok_or("memory")?;
    assert!(rt; unlike.as_str().is_empty(), "{unlike}");
    Ok(())
}
