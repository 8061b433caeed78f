//! Roots that lag behind their variables.

/// The root of a variable lags, and is stored before the seat leaves.
pub const LAGGING: &str = "
$ a root lags behind its variable, and its seat leaves once it is stored
heap one 3
# outside the world no step of a mutator is allowed
1 hold_root 0 0 => 56 1
1 flush_root 0 => 57 1
0 raise_step, 0 observe, 0 next_season, 0 drop_step, 0 leave_step, 1 enter_step, 1 read_season, 1 claim_block 0
1 read_free
1 store_new 0 0 0, 1 store_new 0 1 5
# a cell is half made
1 hold_root 0 0 => 56 3
1 store_new 0 2 4294967296
1 hold_root 32 1 => 56 1
1 hold_root 0 2 => 56 2
1 flush_root 32 => 57 1
1 hold_root 0 1
# variable 0 names cell 0, and so the seat may read it; its root, word 45, is nil
seat 1 lags 1
words 45 0
1 read_value 0
1 hold_root 1 1, 1 hold_root 0 0
seat 1 lags 3
1 read_value 0
1 publish_cells, 1 release_block
1 leave_step => 26 4
1 flush_root 0
1 leave_step => 26 4
1 flush_root 1
seat 1 lags 0
words 45 0, 46 1
# a root that is stored with its variable may lag besides
1 hold_root 2 1, 1 store_root 2 0
seat 1 lags 4
words 47 0
1 leave_step => 26 4
1 flush_root 2, 1 leave_step
# the stop keeps cell 0, which root 1 names
2 raise_step, 2 observe, 2 store_phase 2
words alloc 1, 46 1
";
