//! Seats that share objects, and slots.

/// Each part of the conditions of steps on shared objects and slots, broken once. A section makes two objects at most.
pub const SHARED: &str = "
$ each part of a step on shared objects is told
heap few 3
# outside the world no step of a mutator is allowed
1 exchange_field 0 0 - - => 50 1
1 exchange_value 0 5 6 => 51 1
1 store_slot 0 0 => 52 1
1 read_slot 0 => 53 1
1 load_slot 1 0 => 10 1
0 raise_step, 0 observe, 0 next_season, 0 drop_step, 0 leave_step, 1 enter_step, 1 read_season, 1 claim_block 0
1 read_free
1 store_new 0 0 0, 1 store_new 0 1 5, 1 store_new 0 2 4294967296
1 store_root 0 1
# variable 0 names an object, and variable 1 none
1 exchange_field 32 0 - - => 50 1
1 exchange_field 0 1 - - => 50 1
1 exchange_field 0 0 32 - => 50 1
1 exchange_field 0 0 - 32 => 50 1
1 exchange_field 1 0 - - => 50 2
1 exchange_value 32 5 6 => 51 1
1 exchange_value 1 5 6 => 51 2
1 store_slot 2 0 => 52 1
1 store_slot 0 2 => 52 2
1 read_slot 2 => 53 1
# a cell is half made
1 store_new 1 0 0
1 store_slot 0 0 => 52 3
$ a section makes as many objects as it may
heap few 3
0 raise_step, 0 observe, 0 next_season, 0 drop_step, 0 leave_step, 1 enter_step, 1 read_season, 1 claim_block 0
1 read_free
1 store_new 0 0 0, 1 store_new 0 1 5, 1 store_new 0 2 4294967296, 1 store_root 0 1
1 store_new 1 0 0, 1 store_new 1 1 5, 1 store_new 1 2 4294967297
1 store_new 2 0 0, 1 store_new 2 1 5
1 store_new 2 2 4294967298 => 23 3
$ an exchange owes its card
heap few 3
0 raise_step, 0 observe, 0 next_season, 0 drop_step, 0 leave_step, 1 enter_step, 1 read_season, 1 claim_block 0
1 read_free
1 store_new 0 0 0, 1 store_new 0 1 5, 1 store_new 0 2 4294967296, 1 store_root 0 1
1 publish_cells, 1 release_block
1 exchange_field 0 0 - 0
1 exchange_field 0 0 - - => 50 3
1 exchange_value 0 5 6 => 51 3
1 store_slot 0 1 => 52 3
1 dirty_card 0
1 exchange_value 0 5 6, 1 store_slot 1 1
# seat 2 enters while a cycle marks, and loads slot 1 of section 1, which names cell 0, once it has a packet
1 store_phase 1, 2 enter_step, 2 read_phase
2 load_slot 1 1 => 10 1
2 reserve, 2 take 0 0, 2 read_length 0
2 load_slot 2 1 => 10 1
2 load_slot 1 2 => 10 1
2 load_slot 1 1
2 load_slot 1 1 => 10 2
2 set_mark 0
$ nothing is exchanged where objects aren't shared
heap one 3
0 raise_step, 0 observe, 0 next_season, 0 drop_step, 0 leave_step, 1 enter_step, 1 read_season, 1 claim_block 0
1 read_free
1 store_new 0 0 0, 1 store_new 0 1 5, 1 store_new 0 2 4294967296, 1 store_root 0 1
1 exchange_field 0 0 - - => 50 2
1 exchange_value 0 5 6 => 51 2
";

/// Seat 0 has the catalogue, seats 1 and 2 a section each. Words 258 and 322 are the values of cells 0 and 64.
pub const STORING: &str = "
$ seats store in each other's objects
heap shared 3
# the catalogue has an object in cell 0, which seats 1 and 2 name by their variable 0, each with a block of its own
0 enter_step, 0 read_season, 0 claim_block 0, 0 read_free
0 store_new 0 0 0, 0 store_new 0 1 5, 0 store_new 0 2 0, 0 store_root 0 1
0 publish_cells, 0 release_block, 0 leave_step, 0 raise_step, 0 observe, 0 next_season, 0 drop_step, 0 leave_step
1 enter_step, 1 read_season, 1 claim_block 0, 1 read_free
1 read_cat 0, 1 store_root 0 1
2 enter_step, 2 read_season, 2 claim_block 1, 2 read_free
2 read_cat 0, 2 store_root 0 1
words 258 5
# seat 1 stores in the catalogue's object
1 store_value 0 7
words 258 7
# seat 2 hangs its own object, in cell 64, on it, and owes the card of cell 0
2 store_new 64 0 0, 2 store_new 64 1 8, 2 store_new 64 2 8589934592, 2 store_root 1 65
2 store_field 0 0 1
seat 2 owes 0
2 dirty_card 0
# seat 1 finds it there, though it isn't published, and stores in it: it owes the card of cell 64, since the object isn't of its own cache
1 read_own 0 0
seat 1 got 65
1 store_root 1 65, 1 store_value 1 9
1 store_field 1 0 0
seat 1 owes 4
1 dirty_card 4
# and seat 2 finds what seat 1 stored
2 read_own 64 0, 2 read_value 64
seat 2 got 1
words 322 9
$ in a heap that isn't shared others' objects are refused
heap apart 3
# the catalogue has an object in cell 0, which seats 1 and 2 name by their variable 0, each with a block of its own
0 enter_step, 0 read_season, 0 claim_block 0, 0 read_free
0 store_new 0 0 0, 0 store_new 0 1 5, 0 store_new 0 2 0, 0 store_root 0 1
0 publish_cells, 0 release_block, 0 leave_step, 0 raise_step, 0 observe, 0 next_season, 0 drop_step, 0 leave_step
1 enter_step, 1 read_season, 1 claim_block 0, 1 read_free
1 read_cat 0, 1 store_root 0 1
2 enter_step, 2 read_season, 2 claim_block 1, 2 read_free
2 read_cat 0, 2 store_root 0 1
1 store_value 0 7 => 18 2
1 store_field 0 0 - => 18 2
";

/// Words 386 and 258 are the field and the value of cell 0.
pub const EXCHANGING: &str = "
$ one of two exchanges wins
heap shared 3
# the catalogue has an object in cell 0, which seats 1 and 2 name by their variable 0, each with a block of its own
0 enter_step, 0 read_season, 0 claim_block 0, 0 read_free
0 store_new 0 0 0, 0 store_new 0 1 5, 0 store_new 0 2 0, 0 store_root 0 1
0 publish_cells, 0 release_block, 0 leave_step, 0 raise_step, 0 observe, 0 next_season, 0 drop_step, 0 leave_step
1 enter_step, 1 read_season, 1 claim_block 0, 1 read_free
1 read_cat 0, 1 store_root 0 1
2 enter_step, 2 read_season, 2 claim_block 1, 2 read_free
2 read_cat 0, 2 store_root 0 1
# each of two seats would hang its own object, in cells 1 and 64, on the catalogue's where nothing hangs
1 store_new 1 0 0, 1 store_new 1 1 8, 1 store_new 1 2 4294967296, 1 store_root 1 2
2 store_new 64 0 0, 2 store_new 64 1 9, 2 store_new 64 2 8589934592, 2 store_root 1 65
# seat 1 wins, and owes the card of cell 0
1 exchange_field 0 0 - 1
words 386 2
seat 1 owes 0
# seat 2 finds what seat 1 stored, changes nothing, and owes nothing
2 exchange_field 0 0 - 1
words 386 2
seat 2 owes -
# it reads that reference, and then expects it and wins
2 read_own 0 0, 2 store_root 2 2, 2 exchange_field 0 0 2 1
words 386 65
seat 2 owes 0
# seat 1 owes its card still, so it may not exchange again
1 exchange_field 0 0 1 - => 50 3
1 dirty_card 0
# nor does it find its own object there any more
1 exchange_field 0 0 1 -
words 386 65
seat 1 owes -
$ two seats count in one value
heap shared 3
# the catalogue has an object in cell 0, which seats 1 and 2 name by their variable 0, each with a block of its own
0 enter_step, 0 read_season, 0 claim_block 0, 0 read_free
0 store_new 0 0 0, 0 store_new 0 1 5, 0 store_new 0 2 0, 0 store_root 0 1
0 publish_cells, 0 release_block, 0 leave_step, 0 raise_step, 0 observe, 0 next_season, 0 drop_step, 0 leave_step
1 enter_step, 1 read_season, 1 claim_block 0, 1 read_free
1 read_cat 0, 1 store_root 0 1
2 enter_step, 2 read_season, 2 claim_block 1, 2 read_free
2 read_cat 0, 2 store_root 0 1
words 258 5
# both have read 5: seat 1 wins, seat 2 finds 6, and counts on from there
1 exchange_value 0 5 6
words 258 6
2 exchange_value 0 5 6
words 258 6
2 exchange_value 0 6 7
words 258 7
# no exchange of a value owes a card
seat 1 owes -
seat 2 owes -
$ exchanges are refused where objects aren't shared
heap apart 3
# the catalogue has an object in cell 0, which seats 1 and 2 name by their variable 0, each with a block of its own
0 enter_step, 0 read_season, 0 claim_block 0, 0 read_free
0 store_new 0 0 0, 0 store_new 0 1 5, 0 store_new 0 2 0, 0 store_root 0 1
0 publish_cells, 0 release_block, 0 leave_step, 0 raise_step, 0 observe, 0 next_season, 0 drop_step, 0 leave_step
1 enter_step, 1 read_season, 1 claim_block 0, 1 read_free
1 read_cat 0, 1 store_root 0 1
2 enter_step, 2 read_season, 2 claim_block 1, 2 read_free
2 read_cat 0, 2 store_root 0 1
1 exchange_value 0 5 6 => 51 2
1 exchange_field 0 0 - 0 => 50 2
# also in an object of its own
1 store_new 1 0 0, 1 store_new 1 1 8, 1 store_new 1 2 4294967296, 1 store_root 0 2
1 exchange_field 0 0 - 0 => 50 2
";

/// The slots begin with word 110, two for each of three sections.
pub const SLOTS: &str = "
$ what is in a slot comes back
heap slots 3
# the catalogue has an object in cell 0, which seats 1 and 2 name by their variable 0, each with a block of its own
0 enter_step, 0 read_season, 0 claim_block 0, 0 read_free
0 store_new 0 0 0, 0 store_new 0 1 5, 0 store_new 0 2 0, 0 store_root 0 1
0 publish_cells, 0 release_block, 0 leave_step, 0 raise_step, 0 observe, 0 next_season, 0 drop_step, 0 leave_step
1 enter_step, 1 read_season, 1 claim_block 0, 1 read_free
1 read_cat 0, 1 store_root 0 1
2 enter_step, 2 read_season, 2 claim_block 1, 2 read_free
2 read_cat 0, 2 store_root 0 1
# seat 2 makes an object in cell 64, spills it into its slot 1, and forgets its variable
2 store_new 64 0 0, 2 store_new 64 1 8, 2 store_new 64 2 8589934592, 2 store_root 1 65
2 store_slot 1 65, 2 store_root 1 0
words 115 65
seat 2 got 0
# then it has the reference no more, but by the slot
2 publish_cells
2 store_slot 0 65 => 52 2
2 read_slot 1
seat 2 got 65
2 store_root 3 65
# slot 1 of seat 1 is another one, and nil
1 read_slot 1
seat 1 got 0
# there is no slot 2
1 read_slot 2 => 53 1
$ a heap may have no slots
heap shared 3
# the catalogue has an object in cell 0, which seats 1 and 2 name by their variable 0, each with a block of its own
0 enter_step, 0 read_season, 0 claim_block 0, 0 read_free
0 store_new 0 0 0, 0 store_new 0 1 5, 0 store_new 0 2 0, 0 store_root 0 1
0 publish_cells, 0 release_block, 0 leave_step, 0 raise_step, 0 observe, 0 next_season, 0 drop_step, 0 leave_step
1 enter_step, 1 read_season, 1 claim_block 0, 1 read_free
1 read_cat 0, 1 store_root 0 1
2 enter_step, 2 read_season, 2 claim_block 1, 2 read_free
2 read_cat 0, 2 store_root 0 1
1 store_slot 0 0 => 52 1
$ a tracer marks what a slot names
heap slots 3
# the catalogue has an object in cell 0, which seats 1 and 2 name by their variable 0, each with a block of its own
0 enter_step, 0 read_season, 0 claim_block 0, 0 read_free
0 store_new 0 0 0, 0 store_new 0 1 5, 0 store_new 0 2 0, 0 store_root 0 1
0 publish_cells, 0 release_block, 0 leave_step, 0 raise_step, 0 observe, 0 next_season, 0 drop_step, 0 leave_step
1 enter_step, 1 read_season, 1 claim_block 0, 1 read_free
1 read_cat 0, 1 store_root 0 1
2 enter_step, 2 read_season, 2 claim_block 1, 2 read_free
2 read_cat 0, 2 store_root 0 1
# an object of seat 2 hangs on its slot 1 alone
2 store_new 64 0 0, 2 store_new 64 1 8, 2 store_new 64 2 8589934592, 2 store_root 1 65
2 store_slot 1 65, 2 store_root 1 0
# seat 1 begins a cycle, with packet 0 in hand, and marks cell 64
1 store_phase 1, 1 read_phase, 1 reserve, 1 take 0 0, 1 load_slot 2 0, 1 load_slot 2 1, 1 set_mark 64
# there is no slot 2, nor a section 3
1 load_slot 2 2 => 10 1
1 load_slot 3 0 => 10 1
";
