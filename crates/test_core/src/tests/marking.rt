//! What marking comes upon: hidden cells, unpublished ones, full packets, helpers.

/// A store hides a cell from a tracer, and cleaning its card finds it.
pub const BARRIER: &str = "
$ a store hides a cell, and cleaning its card finds it
heap one 3
# cell 0 is variable 0's and cell 1 is variable 1's; nobody names cell 2
0 raise_step, 0 observe, 0 next_season, 0 drop_step, 0 leave_step, 1 enter_step, 1 read_season, 1 claim_block 0
1 read_free
1 store_new 0 0 0, 1 store_new 0 1 5, 1 store_new 0 2 4294967296, 1 store_root 0 1
1 store_new 1 0 0, 1 store_new 1 1 5, 1 store_new 1 2 4294967297, 1 store_root 1 2
1 store_new 2 0 0, 1 store_new 2 1 5, 1 store_new 2 2 4294967298
1 publish_cells, 1 release_block
# marking begins, and seat 2 traces: it marks cell 0 and scans it while its field is still nil
1 store_phase 1, 2 enter_step, 2 read_phase
2 reserve, 2 take 0 0, 2 read_length 0
2 read_root 1 0
2 set_mark 0, 2 push 0 0
2 pop 0, 2 read_alloc 0, 2 read_field 0 0
# bits 0 to 2 are published, and bit 0 alone is marked; one packet is out, so the count is 64 + 2 - 1
words alloc 7, mark 1, empty 65, card 0
# then the mutator stores its only other reference to cell 1 in cell 0's field
1 store_field 0 0 1
# the field of cell 0 names cell 1, by its number and 1; its card is owed, and not dirty yet
words field 2, card 0
seat 1 owes 0
# while it owes the card, the mutator can't forget variable 1
1 store_root 1 0 => 19 3
1 dirty_card 0, 1 store_root 1 0
# so no root names cell 1 any more when the tracer comes to variable 1
2 read_root 1 1
seat 2 value -
words mark 1, card 1
# the tracer cleans the card, scans cell 0 once more, and then cell 1: the cleaning marks cell 1 besides, bits 0 and 1
2 clear_card 0, 2 read_marks 0, 2 read_alloc 0
2 read_field 0 0
2 set_mark 1, 2 push 0 1
2 pop 0, 2 read_alloc 0, 2 read_field 1 0
2 store_length 0, 2 give 0 0, 2 credit
words mark 3, card 0, empty 66
# both leave, and seat 1 stops the world and sweeps: cell 2 is freed; of the seats seat 1 alone runs
2 leave_step, 1 leave_step
1 raise_step, 1 observe, 1 store_phase 2
1 store_phase 3, 1 read_stat 1, 1 next_block, 1 read_alloc 0, 1 read_block_marks, 1 store_alloc, 1 clear_marks
1 store_phase 0, 1 drop_step
words phase 0, world 1, alloc 3, mark 0, empty 66
";

/// An unpublished cell waits in a deferred packet.
pub const DEFERRED: &str = "
$ a cell that isn't published is put off, and scanned after its publication
heap one 3
# variable 0 names cell 0, whose field names cell 1; both are the mutator's alone, so no card is owed
0 raise_step, 0 observe, 0 next_season, 0 drop_step, 0 leave_step, 1 enter_step, 1 read_season, 1 claim_block 0
1 read_free
1 store_new 0 0 0, 1 store_new 0 1 5, 1 store_new 0 2 4294967296, 1 store_root 0 1
1 store_new 1 0 0, 1 store_new 1 1 5, 1 store_new 1 2 4294967297
1 store_root 1 2, 1 store_field 0 0 1, 1 store_root 1 0
# marking begins, and the mutator traces as well
1 store_phase 1, 1 read_phase
1 reserve, 1 take 0 0, 1 read_length 0
1 read_root 1 0
1 set_mark 0, 1 push 0 0
# the cell is popped, read as unpublished, and put into the packet again, which is deferred
1 pop 0, 1 read_alloc 0, 1 push 0 0, 1 store_length 0, 1 give 0 1
# packet 0 waits in the deferred pool with its one cell, so the count isn't 66: marking isn't done
words deferred 1, head 1, empty 65
words alloc 0, mark 1, owner 2
# cells 0 and 1 are published, and nobody owns the block any more
1 publish_cells, 1 release_block
words alloc 3, mark 1, owner 0
# the deferred packet is taken again, and its cell leads to the other one: both are marked, and all packets are in the empty pool
1 take 3 0, 1 read_length 0
1 pop 0, 1 read_alloc 0, 1 read_field 0 0
1 set_mark 1, 1 push 0 1
1 pop 0, 1 read_alloc 0, 1 read_field 1 0
1 store_length 0, 1 give 0 0, 1 credit
words deferred 0, head 0, mark 3, empty 66
# and both stay
1 leave_step
1 raise_step, 1 observe, 1 store_phase 2
1 store_phase 3, 1 read_stat 1, 1 next_block, 1 read_alloc 0, 1 read_block_marks, 1 store_alloc, 1 clear_marks
1 store_phase 0, 1 drop_step
words phase 0, alloc 3, mark 0
";

/// No packet has room for a marked cell: its card is dirtied, and cleaned in the stop.
pub const OVERFLOW: &str = "
$ no packet has room for a marked cell: its card is dirtied, and cleaned in the stop
heap one 3
# variables 0 to 3 name cells 0 to 3, and variable 4 names cell 16, on the next card
0 raise_step, 0 observe, 0 next_season, 0 drop_step, 0 leave_step, 1 enter_step, 1 read_season, 1 claim_block 0
1 read_free
1 store_new 0 0 0, 1 store_new 0 1 5, 1 store_new 0 2 4294967296, 1 store_root 0 1
1 store_new 1 0 0, 1 store_new 1 1 5, 1 store_new 1 2 4294967297, 1 store_root 1 2
1 store_new 2 0 0, 1 store_new 2 1 5, 1 store_new 2 2 4294967298, 1 store_root 2 3
1 store_new 3 0 0, 1 store_new 3 1 5, 1 store_new 3 2 4294967299, 1 store_root 3 4
1 store_new 16 0 0, 1 store_new 16 1 5, 1 store_new 16 2 4294967300, 1 store_root 4 17
# only the field of cell 16 names cell 17
1 store_new 17 0 0, 1 store_new 17 1 5, 1 store_new 17 2 4294967301
1 store_root 5 18, 1 store_field 4 0 5, 1 store_root 5 0
1 publish_cells, 1 release_block
# marking begins, and the mutator takes both packets; two cells go into each, and cell 16 is marked besides
1 store_phase 1, 1 read_phase
1 reserve, 1 take 0 0, 1 read_length 0
1 reserve, 1 take 0 1, 1 read_length 1
1 read_root 1 0, 1 set_mark 0, 1 push 0 0
1 read_root 1 1, 1 set_mark 1, 1 push 0 1
1 read_root 1 2, 1 set_mark 2, 1 push 1 2
1 read_root 1 3, 1 set_mark 3, 1 push 1 3
1 read_root 1 4, 1 set_mark 16
# 15 is bits 0 to 3, 65,536 bit 16 and 131,072 bit 17; both packets are out
words alloc 196623, mark 65551, empty 64
# neither packet has room, so the card of cell 16 is dirtied, and nothing is in hand
1 push 0 16 => 5 2
1 push 1 16 => 5 2
1 dirty_card 1
seat 1 fresh -
words card 0, next_card 1
# the four cells are scanned, packet by packet from its end, and both packets are given back: all packets are empty and each root is marked, but a dirty card
# keeps the sweep from beginning
1 pop 0, 1 read_alloc 0, 1 read_field 1 0
1 pop 0, 1 read_alloc 0, 1 read_field 0 0
1 store_length 0, 1 give 0 0, 1 credit
1 pop 1, 1 read_alloc 0, 1 read_field 3 0
1 pop 1, 1 read_alloc 0, 1 read_field 2 0
1 store_length 1
1 give 1 0, 1 credit
1 leave_step
1 raise_step, 1 observe, 1 store_phase 2
words phase 2, empty 66, mark 65551
1 store_phase 3 => 30 2
# seat 1 cleans the card in the stop: cell 16 is scanned, which leads to cell 17; it is found, and stays with the others
1 reserve, 1 take 0 0, 1 read_length 0
1 clear_card 1, 1 read_marks 0, 1 read_alloc 0
1 read_field 16 0
1 set_mark 17, 1 push 0 17
1 pop 0, 1 read_alloc 0, 1 read_field 17 0
1 store_length 0, 1 give 0 0, 1 credit
words mark 196623, next_card 0, empty 66
1 store_phase 3, 1 read_stat 1, 1 next_block, 1 read_alloc 0, 1 read_block_marks, 1 store_alloc, 1 clear_marks
1 store_phase 0, 1 drop_step
words phase 0, world 1, alloc 196623, mark 0
";

/// An unreachable marked cell floats through an ordinary cycle, but not through a precise one, which marks once more in
/// the stop.
pub const PRECISE: &str = "
$ an ordinary cycle keeps what floats
heap one 3
# variable 0 names cell 0, and variable 1 cell 1; both are published
0 raise_step, 0 observe, 0 next_season, 0 drop_step, 0 leave_step, 1 enter_step, 1 read_season, 1 claim_block 0
1 read_free
1 store_new 0 0 0, 1 store_new 0 1 5, 1 store_new 0 2 4294967296, 1 store_root 0 1
1 store_new 1 0 0, 1 store_new 1 1 5, 1 store_new 1 2 4294967297, 1 store_root 1 2
1 publish_cells, 1 release_block
# both cells are marked and scanned; then variable 0 is nil, and the world stops
1 store_phase 1, 1 read_phase
1 reserve, 1 take 0 0, 1 read_length 0
1 read_root 1 0
1 set_mark 0, 1 push 0 0
1 pop 0, 1 read_alloc 0, 1 read_field 0 0
1 read_root 1 1, 1 set_mark 1, 1 push 0 1
1 pop 0, 1 read_alloc 0, 1 read_field 1 0
1 store_length 0, 1 give 0 0, 1 credit
1 store_root 0 0, 1 leave_step
1 raise_step, 1 observe, 1 store_phase 2
# bits 0 and 1 are marked, and the drain didn't begin without marks
words phase 2, alloc 3, mark 3, empty 66
seat 1 exact 0
1 store_phase 3, 1 read_stat 1, 1 next_block, 1 read_alloc 0, 1 read_block_marks, 1 store_alloc, 1 clear_marks
1 store_phase 0, 1 drop_step
words phase 0, alloc 3, mark 0
$ a precise one frees it
heap one 3
# variable 0 names cell 0, and variable 1 cell 1; both are published
0 raise_step, 0 observe, 0 next_season, 0 drop_step, 0 leave_step, 1 enter_step, 1 read_season, 1 claim_block 0
1 read_free
1 store_new 0 0 0, 1 store_new 0 1 5, 1 store_new 0 2 4294967296, 1 store_root 0 1
1 store_new 1 0 0, 1 store_new 1 1 5, 1 store_new 1 2 4294967297, 1 store_root 1 2
1 publish_cells, 1 release_block
# both cells are marked and scanned; then variable 0 is nil, and the world stops
1 store_phase 1, 1 read_phase
1 reserve, 1 take 0 0, 1 read_length 0
1 read_root 1 0
1 set_mark 0, 1 push 0 0
1 pop 0, 1 read_alloc 0, 1 read_field 0 0
1 read_root 1 1, 1 set_mark 1, 1 push 0 1
1 pop 0, 1 read_alloc 0, 1 read_field 1 0
1 store_length 0, 1 give 0 0, 1 credit
1 store_root 0 0, 1 leave_step
1 raise_step, 1 observe, 1 store_phase 2
# all marks are cleared, and the drain begins anew: no cell is marked then, so from here on it marks what is reachable and no more
1 store_phase 4, 1 read_stat 1, 1 next_block, 1 clear_marks, 1 store_phase 2, 1 reset 1
words phase 2, alloc 3, mark 0
seat 1 exact 1
# of the roots variable 1 alone isn't nil: bit 1
1 reserve, 1 take 0 0, 1 read_length 0
1 read_root 1 1, 1 set_mark 1, 1 push 0 1
1 pop 0, 1 read_alloc 0, 1 read_field 1 0
1 store_length 0, 1 give 0 0, 1 credit
words mark 2, empty 66
1 store_phase 3, 1 read_stat 1, 1 next_block, 1 read_alloc 0, 1 read_block_marks, 1 store_alloc, 1 clear_marks
1 store_phase 0, 1 drop_step
words phase 0, world 1, alloc 2, mark 0
";

/// Two seats without a section help in a stop: each sweeps a block.
///
/// Words 79 and 80 are allocation bits, 81 and 82 mark bits; 483 is the high pool and 485 the word of help:
/// 4,294,967,296 and how many help, if it is open.
pub const HELPED: &str = "
$ two helpers trace and sweep in one stop, each a block of its own
heap two 4
# block 1 has cell 64, which variable 1 names, and cell 65, which nobody names
0 raise_step, 0 observe, 0 next_season, 0 drop_step, 0 leave_step, 1 enter_step, 1 read_season, 1 claim_block 1
1 read_free
1 store_new 64 0 0, 1 store_new 64 1 5, 1 store_new 64 2 4294967296, 1 store_root 1 65
1 store_new 65 0 0, 1 store_new 65 1 5, 1 store_new 65 2 4294967297
1 publish_cells, 1 release_block
# block 0 has cell 0, which variable 0 names and whose field alone names cell 64, and cell 1, which nobody names
1 claim_block 0, 1 read_free
1 store_new 0 0 0, 1 store_new 0 1 5, 1 store_new 0 2 4294967298
1 store_root 0 1, 1 store_field 0 0 1, 1 store_root 1 0
1 store_new 1 0 0, 1 store_new 1 1 5, 1 store_new 1 2 4294967299
1 publish_cells, 1 release_block
1 leave_step
# two cells in each block; nobody runs
words world 0, 79 3, 80 3
# seat 0 stops the world, begins to drain and opens the stop; seats 2 and 3 are admitted and read its phase
0 raise_step, 0 observe, 0 store_phase 2
0 open_step, 2 join_help_step, 3 join_help_step, 2 read_phase, 3 read_phase
words world 4294967296, phase 2, 485 4294967298
# seat 2 traces cell 0, and gives its packet away with cell 64 in it: cell 64 is marked, and waits in the pool
2 reserve, 2 take 0 0, 2 read_length 0
2 read_root 1 0
2 set_mark 0, 2 push 0 0
2 pop 0, 2 read_alloc 0, 2 read_field 0 0
2 set_mark 64, 2 push 0 64
2 store_length 0, 2 give 0 0
words 81 1, 82 1, 483 1, empty 65
# seat 3 takes this packet from the high pool, since one of two cells is half of it, and traces cell 64; the helpers leave, and seat 0 closes
3 take 2 0, 3 read_length 0
3 pop 0, 3 read_alloc 1, 3 read_field 64 0
3 store_length 0, 3 give 0 0, 3 credit
2 leave_help_step, 3 leave_help_step, 0 close_step
words 483 0, empty 66, 485 0
# until seat 0 has read that nobody helps, it doesn't move the phase
0 store_phase 3 => 30 3
0 see_help, 0 store_phase 3
0 open_step, 2 join_help_step, 3 join_help_step, 2 read_phase, 3 read_phase
# the blocks are handed out in order, and swept in any
2 read_stat 1, 2 next_block, 3 read_stat 1, 3 next_block
3 read_alloc 1, 3 read_block_marks, 3 store_alloc, 3 clear_marks
2 read_alloc 0, 2 read_block_marks, 2 store_alloc, 2 clear_marks
2 leave_help_step, 3 leave_help_step, 0 close_step
0 see_help, 0 store_phase 0
0 drop_step
# cells 1 and 65 are free again, and seat 0 runs
words world 1, phase 0, 485 0, empty 66
words 79 1, 80 1, 81 0, 82 0
";
