//! How packets are taken and phases move, and a sweep in stretches.

/// Packets, phases and one cell, on a heap of one block with four references an object. Word 350 is the one of
/// help, and 664 the second one of the empty pool, if there are 65 packets.
pub const FIRST: &str = "
$ a reservation lowers the count of empty packets, and a credit raises it
heap small 2
# both seats are active and have seen that marking began
0 enter_step, 1 enter_step, 1 store_phase 1, 0 read_phase, 1 read_phase
1 reserve
words empty 65
1 credit
words empty 66
# also once an empty packet was taken and given back
1 reserve, 1 take 0 0, 1 read_length 0, 1 give 0 0, 1 credit
words empty 66
$ an empty packet needs a reservation
heap small 2
0 enter_step, 1 enter_step, 1 store_phase 1, 0 read_phase, 1 read_phase
1 take 0 0 => 2 3
words empty 66
$ the 65th packet is the first bit of the pool's second word
heap wide 2
0 enter_step, 1 enter_step, 1 store_phase 1, 0 read_phase, 1 read_phase
words 664 1
1 reserve, 1 take 0 64
words 664 0
$ only the seat that stopped the world drains, and a mutator doesn't help
heap small 2
1 enter_step
# there is no seat 2, and any event of it is refused by part 0
2 read_count => 8 0
words world 1
1 store_phase 2 => 30 2
words phase 0
1 join_help_step => 44 1
words 350 0
$ the phase stays while the stop is open to helpers
heap small 2
1 raise_step, 1 observe, 1 store_phase 2
1 open_step
1 store_phase 4 => 30 3
words phase 2
$ a whole cycle ends in Idle, with the one block handed out, and the seat that ended it is active again
heap small 2
1 raise_step, 1 observe, 1 store_phase 2
1 store_phase 3, 1 read_stat 1, 1 next_block, 1 read_alloc 0, 1 read_block_marks, 1 store_alloc, 1 clear_marks
1 store_phase 0, 1 drop_step
words phase 0, next_block 1
seat 1 active 1
seat 1 knows 0
$ a cell that isn't published isn't scanned, and while it is in hand the packet stays, and so does the seat
heap small 2
# seat 1 turns the season, makes a cell, marks it from its root, and pops it before it is published
1 raise_step, 1 observe, 1 next_season, 1 drop_step, 1 read_season, 1 claim_block 0, 1 read_free, 1 store_new 0 0 0
1 store_new 0 1 0, 1 store_new 0 2 0, 1 store_new 0 3 0, 1 store_new 0 4 5, 1 store_new 0 5 4294967296, 1 store_root 0 1
1 store_phase 1, 1 read_phase, 1 reserve, 1 take 0 0, 1 read_length 0, 1 read_root 1 0, 1 set_mark 0, 1 push 0 0
1 pop 0, 1 read_alloc 0
seat 1 popped 0
seat 1 unpublished 1
seat 2 number -
1 read_field 0 0 => 10 1
words 78 0
1 give 0 0 => 3 3
words empty 65
1 leave_step => 26 2
words world 1
# pushed back, published and popped again, it is scanned
1 push 0 0, 1 publish_cells, 1 pop 0, 1 read_alloc 0, 1 read_field 0 0
words 78 1
# the scan stands before the second field, and as the first is nil no other cell is in hand
seat 1 scan 0
seat 1 field 1
seat 1 value -
seat 1 popped -
seat 1 fresh -
";

/// A sweep of five blocks in stretches of two, by the seat that stopped the world and a helper.
pub const STRETCHES: &str = "
$ five blocks are swept in stretches of two, by the seat that stopped the world and a helper
heap five 3
# seat 0 stops the world, drains nothing, and sweeps with seat 2 as helper
0 raise_step, 0 observe, 0 store_phase 2, 0 store_phase 3, 0 open_step, 2 join_help_step, 2 read_phase
# seat 0 takes blocks 0 and 1, and seat 2 blocks 2 and 3
0 read_stat 1, 0 next_block
2 read_stat 1, 2 next_block
seat 0 block 0
seat 0 until 2
seat 2 block 2
seat 2 until 4
words next_block 4
# no seat draws again or leaves while a block of its stretch is left
0 read_alloc 0, 0 read_block_marks, 0 store_alloc, 0 clear_marks
seat 0 block 1
seat 0 until 2
0 next_block => 33 2
2 leave_help_step => 45 3
# seat 2 takes what is left, which is one block, and the counter passes its end
2 read_alloc 2, 2 read_block_marks, 2 store_alloc, 2 clear_marks
2 read_alloc 3, 2 read_block_marks, 2 store_alloc, 2 clear_marks
seat 2 block -
2 read_stat 1, 2 next_block
seat 2 block 4
seat 2 until 5
words next_block 6
# seat 0 ends its stretch and finds no further block
0 read_alloc 1, 0 read_block_marks, 0 store_alloc, 0 clear_marks
seat 0 block -
0 read_stat 1
0 next_block => 33 3
# once seat 2 has swept the last block the sweep ends
2 read_alloc 4, 2 read_block_marks, 2 store_alloc, 2 clear_marks
seat 2 block -
2 leave_help_step, 0 close_step
0 see_help, 0 store_phase 0
words phase 0
";
