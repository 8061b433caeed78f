//! A seat asks for a cell by its number alone.

/// A cell is asked for by its number alone, before and after its object is freed.
pub const WEAK: &str = "
$ an object to which nothing leads is there for whoever asks, until it is swept
heap shared 3
0 raise_step, 0 observe, 0 next_season, 0 drop_step, 0 leave_step
# outside the world nobody asks for a cell
1 read_weak 0 => 54 1
1 enter_step, 1 read_season, 1 claim_block 0, 1 read_free
2 enter_step, 2 read_season
# there is no cell 128
1 read_weak 128 => 54 1
# a free cell has no object
1 read_weak 0
seat 1 got 0
# whoever made an object finds it before it is published, and nobody else
1 store_new 0 0 0, 1 store_new 0 1 5
1 read_weak 0
seat 1 got 0
1 store_new 0 2 4294967296
1 read_weak 0
seat 1 got 1
1 store_root 0 1
seat 1 got 0
2 read_weak 0
seat 2 got 0
# once it is published and nothing leads to it any more, seat 2 finds it all the same, and only so
1 publish_cells, 1 release_block, 1 store_root 0 0
2 read_ident 0 => 17 2
2 store_root 3 1 => 19 2
2 read_weak 0
seat 2 got 1
2 read_ident 0
2 store_root 3 1
# seat 2 keeps it over a cycle: with packet 0 in hand it marks what its variable names
2 store_phase 1, 2 read_phase, 2 reserve, 2 take 0 0, 2 read_length 0, 2 read_root 2 3, 2 set_mark 0, 2 push 0 0
2 pop 0, 2 read_alloc 0, 2 read_field 0 0, 2 store_length 0, 2 give 0 0, 2 credit
2 leave_step, 1 leave_step
1 raise_step, 1 observe, 1 store_phase 2
# while the world is stopped nobody asks
1 read_weak 0 => 54 1
1 store_phase 3
1 read_stat 1, 1 next_block, 1 read_alloc 0, 1 read_block_marks, 1 store_alloc, 1 clear_marks
1 read_stat 1, 1 next_block, 1 read_alloc 1, 1 read_block_marks, 1 store_alloc, 1 clear_marks
1 store_phase 0, 1 drop_step, 1 read_season
1 read_weak 0
seat 1 got 1
1 read_ident 0
1 store_root 0 0
# seat 2 lets it go, and the next cycle frees it: now it is there for nobody
2 enter_step, 2 read_season, 2 store_root 3 0, 2 leave_step, 1 leave_step
1 raise_step, 1 observe, 1 reset 1, 1 store_phase 2, 1 store_phase 3
1 read_stat 1, 1 next_block, 1 read_alloc 0, 1 read_block_marks, 1 store_alloc, 1 clear_marks
1 read_stat 1, 1 next_block, 1 read_alloc 1, 1 read_block_marks, 1 store_alloc, 1 clear_marks
1 store_phase 0, 1 drop_step, 1 read_season
1 read_weak 0
seat 1 got 0
2 enter_step, 2 read_season
2 read_weak 0
seat 2 got 0
# another object in its cell has another identity
2 claim_block 0, 2 read_free
2 store_new 0 0 0, 2 store_new 0 1 7, 2 store_new 0 2 8589934592, 2 store_root 0 1, 2 publish_cells
1 read_weak 0
seat 1 got 1
1 read_ident 0
# what was asked for may be held in a variable whose root lags; the root is stored before the seat leaves
1 hold_root 2 1
seat 1 got 0
seat 1 lags 4
1 read_ident 0
1 leave_step => 26 4
1 flush_root 2
seat 1 lags 0
1 leave_step
";
