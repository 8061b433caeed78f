//! A small input of each command, and of each fault.

/// The sizes of pieces stand behind a dump's status, whose bytes are no lines.
pub const COMMANDS: &str =
    "$ run --cells=64 --workers=1 --tracers=0 --packets=2 --entries=2; gcscript 1; warehouse; new x 5; say a x
=> 0; warehouse 1; a 5; dropped 0; survivors 1; 1 0 5
$ run --cells=64 --workers=1 --tracers=0 --packets=2 --entries=2; gcscript 1; catalogue; new item 40; warehouse
cat i item; set i 0 i; put i 7; say a i; new o 1; set o 2 i; get j o 2; say b j
=> 0; warehouse 1; a 40; b 40; dropped 2; survivors 2; 0 0 40; 1 0 1
$ run --cells=64 --workers=1 --tracers=0 --packets=2 --entries=2; gcscript 3; fields 1; catalogue; new a 1; season
new a 2; warehouse; cat x a; season; say q x
=> 0; warehouse 1; q 1; dropped 0; survivors 2; 0 0 1; 0 1 2
$ run --place --cells=64 --workers=1 --tracers=0 --packets=2 --entries=2; gcscript 1; warehouse
=> 0; warehouse 1; dropped 0; survivors 0; placed 0
$ run --cells=64 --workers=1 --tracers=0 --packets=2 --entries=2; gcscript 1; warehouse; nil x; repeat 65; new y 1
set y 0 x; let x y; end
=> 3; full section 1; position 0 0; position 1 193
$ load --number=1 --size=1 --cells=64 --workers=1 --tracers=0 --packets=2 --entries=2; gcscript 1; warehouse; new x 5
say a x
=> 0; commands 4; objects 0; lines 0; survivors 0; total 0
$ batch --runners=2 --cells=64 --workers=1 --tracers=0 --packets=2 --entries=2; gcbatch 1; job 37; gcscript 1
warehouse; new x 5; say a x; job 0
=> 0; job 0 status 0 bytes 44; warehouse 1; a 5; dropped 0; survivors 1; 1 0 5; job 1 status 2 bytes 12; 2 BadHeader
$ run --cells 65; gcscript 1; warehouse; new x 5; say a x
=> 1; usage: gcplay command [options]
$ convert; gcscript 1; warehouse; new x 5; say a x
=> 0; gcscript 2; fields 4; warehouse; new x 5; say a x
$ convert; gcscript 2; fields 9
=> 0; gcscript 2; fields 9
$ gen --number 1 --size 1; gcscript 1; warehouse; new x 5; say a x
=> 0; gcscript 1; warehouse; nil a; warehouse; nil a; warehouse; nil a; warehouse; nil a
$ schedule; gcschedule 1; shape 64 2 2 2 4 2; 1 enter_step; 1 store_phase 1; 1 read_phase; 1 reserve; 1 read_count
=> 0; accepted 5; phase 1; empty 65; marked 0; used 0; closed no
$ schedule; gcschedule 1; shape 64 2 2 2 4 2; 1 enter_step; 1 store_phase 1; 1 read_phase; 1 reserve; 1 reserve
=> 7; refused line 7 rule 1 part 2
$ schedule; gcschedule 1; ÿ=> 2; 21 NotAscii offset 13
$ schedule; gcschedule 2
=> 2; 22 BadHeader
$ schedule; gcschedule 1; shape 65 2 2 2 4 2
=> 2; 23 BadShape
$ schedule; gcschedule 1; shape 64 2 2 2 4 2; 1 bad
=> 2; 24 BadEvent line 3
$ batch; gcbatch 1; job 1
=> 2; 42 CutJob job 0
$ dump --cells=64 --workers=1 --tracers=0 --packets=2 --entries=2; gcscript 1; warehouse; new x 5; say a x
=> 0 in 8 12 128 128 28; gcdump 1\0\0\0\x04\0\0\0\x02\0\0\0\x01{128*\0}\0\0\0\x01{124*\0}\0\0\0\x01\0\0\0\0\0\0\0\x05{16*\0}{0*
}$ undump; gcdump 1\0\0\0\x04\0\0\0\x02\0\0\0\x01{128*\0}\0\0\0\x01{124*\0}\0\0\0\x01\0\0\0\0\0\0\0\x05{16*\0}=> 0; sections 2 fields 4 records 1
1 0 5
$ census; gcdump 1\0\0\0\x04\0\0\0\x02\0\0\0\x01{128*\0}\0\0\0\x01{124*\0}\0\0\0\x01\0\0\0\0\0\0\0\x05{16*\0}=> 0; levels 1
level 0 1; unreached 0; section 0 0 0; section 1 1 5; value 5 1
$ undump; Gcdump 1\0\0\0\x04\0\0\0\x02\0\0\0\x01{128*\0}\0\0\0\x01{124*\0}\0\0\0\x01\0\0\0\0\0\0\0\x05{16*\0}=> 2; 32 BadMagic
$ undump; gcdump 1\0\0\0\x11\0\0\0\x02\0\0\0\x01{128*\0}\0\0\0\x01{124*\0}\0\0\0\x01\0\0\0\0\0\0\0\x05{16*\0}=> 2; 33 BadShape
$ undump; gcdump 1\0\0\0\x04\0\0\0\x02\0\0\0\x02{128*\0}\0\0\0\x01{124*\0}\0\0\0\x01\0\0\0\0\0\0\0\x05{16*\0}=> 2; 31 Cut needed 332
$ undump; gcdump 1\0\0\0\x04\0\0\0\x02\0\0\0\x01\0\0\0\x02{124*\0}\0\0\0\x01{124*\0}\0\0\0\x01\0\0\0\0\0\0\0\x05{16*\0}=> 2; 35 BadRoot index 0
$ undump; gcdump 1\0\0\0\x04\0\0\0\x02\0\0\0\x01{128*\0}\0\0\0\x01{124*\0}\0\0\0\x02\0\0\0\0\0\0\0\x05{16*\0}=> 2; 36 BadRecord record 0
$ undump; gcdump 1\0\0\0\x04\0\0\0\x02\0\0\0\x01{128*\0}\0\0\0\x01{124*\0}\0\0\0\x01\0\0\0\0\0\0\0\x05\0\0\0\x02{12*\0}=> 2; 37 BadRef record 0 field 0
$ undump; gcdump 1=> 2; 31 Cut needed 20
$ undump; gcdump 1\0\0\0\x04\0\0\0\x02\0\0\0\x01{128*\0}\0\0\0\x01{124*\0}\0\0\0\x01\0\0\0\0\0\0\0\x05{16*\0}\0=> 2; 34 TooMuch
$ census; gcdump 1\0\0\0\x04\0\0\0\x02\0\0\0\x01{128*\0}\0\0\0\x01{124*\0}\0\0\0\x01\0\0\0\0\0\0\0\x05{16*\0}\0=> 2; 34 TooMuch
";
