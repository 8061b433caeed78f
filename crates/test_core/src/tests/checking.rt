//! A card that is dirty already answers for a store that came before it was checked.

/// Each part of the condition broken once, and both outcomes.
pub const CHECKED: &str = "
$ a card that is found dirty after a store isn't owed any more, and cleaning it finds the hidden cell
heap one 3
# outside the world nobody checks a card
1 check_card 0 => 55 1
0 raise_step, 0 observe, 0 next_season, 0 drop_step, 0 leave_step, 1 enter_step, 1 read_season, 1 claim_block 0
# there is no card 4
1 check_card 4 => 55 1
1 read_free
1 store_new 0 0 0, 1 store_new 0 1 5, 1 store_new 0 2 4294967296, 1 store_root 0 1
1 store_new 1 0 0, 1 store_new 1 1 5, 1 store_new 1 2 4294967297, 1 store_root 1 2
1 publish_cells, 1 release_block
# marking begins, and seat 2 marks cell 0 and scans it while its field is still nil
1 store_phase 1, 2 enter_step, 2 read_phase
2 reserve, 2 take 0 0, 2 read_length 0
2 read_root 1 0
2 set_mark 0, 2 push 0 0
2 pop 0, 2 read_alloc 0, 2 read_field 0 0
# a card that is found clean is owed still
1 store_field 0 0 -
1 check_card 0
seat 1 owes 0
words card 0
1 store_root 1 0 => 19 3
# so it is if another card is found dirty, or if another seat finds it so
2 dirty_card 1
1 check_card 1
seat 1 owes 0
1 dirty_card 0
seat 1 owes -
# the mutator stores its only other reference to cell 1 in cell 0's field, whose card is dirty already
1 store_field 0 0 1
2 check_card 0
seat 1 owes 0
1 store_root 1 0 => 19 3
1 check_card 0
seat 1 owes -
words card 1, next_card 1
1 store_root 1 0
# no root names cell 1 any more when the tracer comes to variable 1, but the card is dirty
2 read_root 1 1
seat 2 value -
2 clear_card 0, 2 read_marks 0, 2 read_alloc 0
2 read_field 0 0
2 set_mark 1, 2 push 0 1
words mark 3, card 0
$ a card that was found dirty before a store is owed after it
heap one 3
0 raise_step, 0 observe, 0 next_season, 0 drop_step, 0 leave_step, 1 enter_step, 1 read_season, 1 claim_block 0
1 read_free
1 store_new 0 0 0, 1 store_new 0 1 5, 1 store_new 0 2 4294967296, 1 store_root 0 1
1 store_new 1 0 0, 1 store_new 1 1 5, 1 store_new 1 2 4294967297, 1 store_root 1 2
1 publish_cells, 1 release_block
1 store_phase 1, 2 enter_step, 2 read_phase
2 reserve, 2 take 0 0, 2 read_length 0
2 read_root 1 0
2 set_mark 0, 2 push 0 0
2 pop 0, 2 read_alloc 0, 2 read_field 0 0
# the mutator finds the card dirty, and the tracer cleans it before the store
1 store_field 0 0 -
1 dirty_card 0
1 check_card 0
2 clear_card 0, 2 read_marks 0, 2 read_alloc 0
2 read_field 0 0
1 store_field 0 0 1
# now it is clean and owed, so the mutator can't forget variable 1, its other way to cell 1
1 check_card 0
seat 1 owes 0
1 store_root 1 0 => 19 3
1 dirty_card 0, 1 store_root 1 0
words card 1
";
