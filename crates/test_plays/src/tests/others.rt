//! Commands that play nothing, batches, and words that ask for nothing.

/// The longest source, too: a conversion adds 9 bytes, and what comes of it may be as long as a source.
pub const CONVERTS: &str = "$ convert; gcscript 1; warehouse; new x 5; say a x
=> 0; gcscript 2; fields 4; warehouse; new x 5; say a x
$ convert; gcscript 1=> 0; gcscript 2; fields 4
$ convert; gcscript 1
=> 0; gcscript 2; fields 4
$ convert;   gcscript   1 ; # a ; ;  warehouse=> 0; gcscript 2; fields 4; # a ; ;  warehouse{0*
}$ convert; gcscript 2; fields 9=> 0; gcscript 2; fields 9{0*
}$ convert;  gcscript  2; ; fields  016; warehouse; nil x; get x x 15
=> 0;  gcscript  2; ; fields  016; warehouse; nil x; get x x 15
$ convert; gcscript 3; fields 1; warehouse; season
=> 0; gcscript 3; fields 1; warehouse; season
$ run; gcscript 1; #{1048564*a}=> 0; survivors 0
$ run; gcscript 1; #{1048565*a}=> 2; 11 TooLong
$ convert; gcscript 1; #{1048555*a}=> 0; gcscript 2; fields 4; #{1048555*a}{0*
}$ convert; gcscript 1; #{1048556*a}=> 2; 14 ConvertedTooLong
$ convert; gcscript 1; #{1048564*a}=> 2; 14 ConvertedTooLong
$ convert; gcscript 1; #{1048565*a}=> 2; 11 TooLong
";

/// One batch has a job too many.
pub const BATCHES: &str =
    "$ batch; gcbatch 1; job 37; gcscript 1; warehouse; new x 5; say a x; job 11; gcscript 1; job 0
=> 0; job 0 status 0 bytes 44; warehouse 1; a 5; dropped 0; survivors 1; 1 0 5; job 1 status 0 bytes 12; survivors 0
job 2 status 2 bytes 12; 2 BadHeader
$ batch --runners 1; gcbatch 1; job 37; gcscript 1; warehouse; new x 5; say a x; job 11; gcscript 1; job 0
=> 0; job 0 status 0 bytes 44; warehouse 1; a 5; dropped 0; survivors 1; 1 0 5; job 1 status 0 bytes 12; survivors 0
job 2 status 2 bytes 12; 2 BadHeader
$ batch --runners=8; gcbatch 1; job 37; gcscript 1; warehouse; new x 5; say a x; job 11; gcscript 1; job 0
=> 0; job 0 status 0 bytes 44; warehouse 1; a 5; dropped 0; survivors 1; 1 0 5; job 1 status 0 bytes 12; survivors 0
job 2 status 2 bytes 12; 2 BadHeader
$ batch --cells 64 --workers 1 --tracers=0; gcbatch 1; job 81; gcscript 1; warehouse; nil x; repeat 65; new y 1
set y 0 x; let x y; end; sum s x 0 100; job 00011; gcscript 1
=> 0; job 0 status 3 bytes 43; full section 1; position 0 0; position 1 193; job 1 status 0 bytes 12; survivors 0
$ batch; => 2; 41 BadBatch offset 0
$ batch; gcbatch 1=> 2; 41 BadBatch offset 0
$ batch; gcbatch 1; job 0=> 2; 41 BadBatch offset 10
$ batch; gcbatch 1; job 0; job +1
=> 2; 41 BadBatch offset 16
$ batch; gcbatch 1; job 5; abc
=> 2; 42 CutJob job 0
$ batch; gcbatch 1; job 0; job 1
=> 2; 42 CutJob job 1
$ batch --place; gcbatch 1; job 37; gcscript 1; warehouse; new x 5; say a x; job 11; gcscript 1; job 0
=> 1; usage: gcplay command [options]
$ batch --runners 9; gcbatch 1; job 37; gcscript 1; warehouse; new x 5; say a x; job 11; gcscript 1; job 0
=> 1; usage: gcplay command [options]
$ batch; gcbatch 1; {64*job 0
}=> 0; {64*job % status 2 bytes 12; 2 BadHeader
}$ batch; gcbatch 1; {65*job 0
}=> 2; 43 TooManyJobs offset 394
$ batch; gcbatch 1
=> 0; ";

/// Words that play nothing, or ask for nothing.
pub const OTHERS: &str =
    "$ schedule; gcschedule 1; shape 64 2 2 2 4 2; 1 enter_step; 1 store_phase 1; 1 read_phase; 1 reserve; 1 read_count
=> 0; accepted 5; phase 1; empty 65; marked 0; used 0; closed no
$ schedule; gcschedule 1; shape 64 2 2 2 4 2; 1 raise_step; 1 observe; 1 next_season; 1 drop_step; 1 read_season
1 claim_block 0; 1 read_free; 1 store_new 0 0 0; 1 store_new 0 1 0; 1 store_new 0 2 0; 1 store_new 0 3 0
1 store_new 0 4 5; 1 store_new 0 5 4294967296; 1 store_root 0 1; 1 store_phase 1; 1 read_phase; 1 reserve; 1 take 0 0
1 read_length 0; 1 read_root 1 0; 1 set_mark 0; 1 push 0 0; 1 pop 0; 1 read_alloc 0; 1 read_field 0 0
=> 7; refused line 27 rule 10 part 1
$ schedule; gcschedule 1
=> 2; 23 BadShape
$ schedule; gcscript 1
=> 2; 22 BadHeader
$ gen --number 1 --size 8; gcscript 1; warehouse; new x 5; say a x
=> 0; gcscript 1; {4*warehouse; nil a; nil b; nil c; nil d; nil e; nil f; nil g; nil h
}$ gen --size=8 --number=4294967295; gcscript 1; warehouse; new x 5; say a x
=> 0; gcscript 1; {4*warehouse; nil a; nil b; nil c; nil d; nil e; nil f; nil g; nil h
}$ gen --size=008 --number 0; gcscript 1; warehouse; new x 5; say a x
=> 0; gcscript 1; {4*warehouse; nil a; nil b; nil c; nil d; nil e; nil f; nil g; nil h
}$ undump; gcdump 1\0\0\0\x04\0\0\0\x02\0\0\0\x01{128*\0}\0\0\0\x01{124*\0}\0\0\0\x01\0\0\0\0\0\0\0\x05{15*\0}=> 2; 31 Cut needed 304
$ census; gcdump 1\0\0\0\x04\0\0\0\x02\0\0\0\x01{128*\0}\0\0\0\x01{124*\0}\0\0\0\x01\0\0\0\0\0\0\0\x05{15*\0}=> 2; 31 Cut needed 304
$ ; gcscript 1; warehouse; new x 5; say a x
=> 1; usage: gcplay command [options]
$ run --cells 100; gcscript 1; warehouse; new x 5; say a x
=> 1; usage: gcplay command [options]
$ run --cells 64 --cells 64; gcscript 1; warehouse; new x 5; say a x
=> 1; usage: gcplay command [options]
$ run run; gcscript 1; warehouse; new x 5; say a x
=> 1; usage: gcplay command [options]
$ Run; gcscript 1; warehouse; new x 5; say a x
=> 1; usage: gcplay command [options]
$ gen --number 1; gcscript 1; warehouse; new x 5; say a x
=> 1; usage: gcplay command [options]
$ convert --place; gcscript 1; warehouse; new x 5; say a x
=> 1; usage: gcplay command [options]
$ dump --place; gcscript 1; warehouse; new x 5; say a x
=> 1; usage: gcplay command [options]
";
