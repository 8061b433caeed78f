//! What a play writes.

/// Small scripts.
pub const PLAYED: &str = "$ run; gcscript 1; warehouse; new x 5; say a x
=> 0; warehouse 1; a 5; dropped 0; survivors 1; 1 0 5
$ run; gcscript 1
=> 0; survivors 0
$ run; gcscript 1; warehouse; new x 1; new y 2; set x 0 y; set y 0 x; nil x; nil y; collect; say a x
=> 0; warehouse 1; a nil; dropped 0; survivors 0
$ run; gcscript 1; warehouse; new x 7; set x 0 x; sum a x 0 0; sum b x 0 3; nil y; sum c y 0 5; new p 1; new q 2
set p 0 q; sum d p 0 1; sum e p 0 9
=> 0; warehouse 1; a 0 0; b 3 21; c 0 0; d 1 1; e 2 3; dropped 0; survivors 3; 1 0 7; 1 1 1; 1 2 2
$ run; gcscript 1; warehouse; nil x; say a x; set x 0 x; put x 9; get y x 0; say b y
=> 0; warehouse 1; a nil; b nil; dropped 0; survivors 0
$ run; gcscript 1; warehouse; new x 4294967295
=> 0; warehouse 1; dropped 0; survivors 1; 1 0 4294967295
$ run; gcscript 1; warehouse; repeat 2000000; nil x; end
=> 0; warehouse 1; dropped 0; survivors 0
$ run; gcscript 1; ;   warehouse ;  new   x  005=> 0; warehouse 1; dropped 0; survivors 1; 1 0 5
$ run --cells 64; gcscript 1; warehouse; repeat 200000; new x 1; end
=> 0; warehouse 1; dropped 0; survivors 1; 1 199999 1
$ run --cells=64; gcscript 1; warehouse; new a 1; new b 2; set a 0 b; nil a; nil b; repeat 100; new c 3; end; say s c
=> 0; warehouse 1; s 3; dropped 0; survivors 1; 1 101 3
$ run --cells 64; gcscript 1; warehouse; nil x; repeat 65; new y 1; set y 0 x; let x y; end; sum s x 0 100
=> 3; full section 1; position 0 0; position 1 193
$ run; gcscript 1; warehouse; new x 1; new y 2; set x 0 y; set y 0 x; nil x; nil y; say a x
=> 0; warehouse 1; a nil; dropped 0; survivors 0
$ run --cells 64 --workers 1; gcscript 1; warehouse; nil x; repeat 40; new y 1; set y 0 x; let x y; end; warehouse
nil x; repeat 30; new y 1; set y 0 x; let x y; end
=> 3; full section 2; position 0 0; position 1 121; position 2 73
$ run; gcscript 2; fields 1; warehouse; new x 5; set x 0 x; sum a x 0 3
=> 0; warehouse 1; a 3 15; dropped 0; survivors 1; 1 0 5
$ run; gcscript 2; fields 16; warehouse; new x 1; set x 15 x; get y x 15; say a y
=> 0; warehouse 1; a 1; dropped 0; survivors 1; 1 0 1
$ run; gcscript 3; fields 4; catalogue; new a 1; season; new a 2; warehouse; cat x a; say p x; season; say q x
cat y a; say r y
=> 0; warehouse 1; p 1; q 1; r 2; dropped 0; survivors 2; 0 0 1; 0 1 2
$ run; gcscript 3; fields 4; catalogue; new a 1; season; new a 2; warehouse; cat x a; say p x; season; say q x
cat y a; say r y; nil x
=> 0; warehouse 1; p 1; q 1; r 2; dropped 0; survivors 1; 0 1 2
$ load --number 1 --size 8; => 0; commands 32; objects 0; lines 0; survivors 0; total 0
";

/// All cells are reachable; a chain grows among garbage; objects with three leaves, in the fewest and shortest packets;
/// a chain of 65,000 objects; as many objects as may be.
pub const LONG: &str =
    "$ run --cells 64; gcscript 1; warehouse; nil x; {64*new y 1; set y 0 x; let x y
}=> 0; warehouse 1; dropped 0; survivors 64; {0..64*1 % 1
}$ run --cells 64; gcscript 1; warehouse; nil x; repeat 64; new y 1; set y 0 x; let x y; end; sum s x 0 100
=> 0; warehouse 1; s 64 64; dropped 0; survivors 64; {0..64*1 % 1
}$ run --cells 64; gcscript 1; warehouse; new head 1; let last head; repeat 50; new n 2; set last 0 n; let last n
nil n; {9*new g 9; }end; sum t head 0 100
=> 0; warehouse 1; t 51 101; dropped 0; survivors 52; 1 0 1; 1 1 2; {1..50*1 %1 2; }1 500 9
$ run --cells 64; gcscript 1; warehouse; new head 1; let last head; repeat 50; new n 2; set last 0 n; let last n
nil n; new g 9; new g 9; end; sum t head 0 100
=> 0; warehouse 1; t 51 101; dropped 0; survivors 52; 1 0 1; 1 1 2; 1 4 2; 1 7 2; 1 10 2; 1 13 2; 1 16 2; 1 19 2
1 22 2; 1 25 2; 1 28 2; 1 31 2; 1 34 2; 1 37 2; 1 40 2; 1 43 2; 1 46 2; 1 49 2; 1 52 2; 1 55 2; 1 58 2; 1 61 2; 1 64 2
1 67 2; 1 70 2; 1 73 2; 1 76 2; 1 79 2; 1 82 2; 1 85 2; 1 88 2; 1 91 2; 1 94 2; 1 97 2; 1 100 2; 1 103 2; 1 106 2
1 109 2; 1 112 2; 1 115 2; 1 118 2; 1 121 2; 1 124 2; 1 127 2; 1 130 2; 1 133 2; 1 136 2; 1 139 2; 1 142 2; 1 145 2
1 148 2; 1 150 9
$ run --packets 2 --entries 2; gcscript 1; warehouse; nil spine; repeat 1000; new n 1; set n 0 spine; new l 2
set n 1 l; new l 2; set n 2 l; new l 2; set n 3 l; let spine n; end; collect; sum s spine 0 2000
=> 0; warehouse 1; s 1000 1000; dropped 0; survivors 4000; {1000*1 & 1; 1 & 2; 1 & 2; 1 & 2
}$ run --cells 65536; gcscript 1; warehouse; nil x; repeat 65000; new y 1; set y 0 x; let x y; end; sum s x 0 65536
=> 0; warehouse 1; s 65000 65000; dropped 0; survivors 65000; {0..65000*1 % 1
}$ run --cells 64; gcscript 1; warehouse; repeat 2000000; new x 1; end
=> 0; warehouse 1; dropped 0; survivors 1; 1 1999999 1
";

/// A catalogue grows anew in each of three seasons; 31 warehouses share one block; eight warehouses, each with 5,000
/// orders of ten lines, beside a catalogue of 200 items.
pub const BROAD: &str =
    "$ run --cells 64; gcscript 3; fields 4; catalogue; nil s; nil n; repeat 40; new n 1; set n 0 s; let s n; end
{2*season; nil s; nil n; repeat 40; new n 1; set n 0 s; let s n; end; }warehouse; season; season; cat x s
sum t x 0 99
=> 0; warehouse 1; t 40 40; dropped 0; survivors 40; {80..120*0 % 1
}$ run --cells 64 --workers 31; gcscript 1; {31*warehouse; new a 1; repeat 100; new b 2; end
}=> 0; {1..32*warehouse %; dropped 0; }survivors 62; {1..32*% 0 1; % 100 2
}$ run; gcscript 1; catalogue; new first 1; let last first; repeat 199; new item 2; set last 0 item; let last item; end
{8*warehouse; cat item first; nil order; repeat 5000; nil order; new line 3; set line 0 order; set line 1 item
let order line; new line 3; set line 0 order; set line 1 item; let order line; new line 3; set line 0 order
set line 1 item; let order line; new line 3; set line 0 order; set line 1 item; let order line; new line 3
set line 0 order; set line 1 item; let order line; new line 3; set line 0 order; set line 1 item; let order line
new line 3; set line 0 order; set line 1 item; let order line; new line 3; set line 0 order; set line 1 item
let order line; new line 3; set line 0 order; set line 1 item; let order line; new line 3; set line 0 order
set line 1 item; let order line; end; sum stock item 0 1000; sum lines order 0 100
}=> 0; {1..9*warehouse %; stock 200 399; lines 10 30; dropped 0; }survivors 280; 0 0 1; {1..200*0 % 2
}{1..9*% 49990 3; % 49991 3; % 49992 3; % 49993 3; % 49994 3; % 49995 3; % 49996 3; % 49997 3; % 49998 3; % 49999 3
}";
