//! The narrowest heaps, on scripts that are hard on marking, and options at their extremes change nothing that is
//! written.
//!
//! Of 72 shapes 18 are played, so that any two of their values come together.
use crate::tests::written::all_hold;
use std::process::Abort;
use std::sync::Wait;
use std::thread::Threads;

/// One path alone leads to what was stored last; chains beside garbage; objects with sixteen leaves; a collection after
/// each object; a catalogue that makes its chain anew; two chains that fill 64 cells between them.
const NARROW: &str =
    "$ run; gcscript 1; {3*warehouse; new a 1; new b 2; set b 0 a; repeat 100; new c 3; set a 0 c; set c 1 b; get d a 0
put d 4; nil c; nil d; end; nil b; sum s a 0 5; get e a 0; get e e 1; say b e
}=> 0; {1..4*warehouse %; s 2 5; b 2; dropped 0; }survivors 9; {1..4*% 0 1; % 1 2; % 101 4
}$ run; gcscript 1; {2*warehouse; nil s; repeat 25; new n 1; set n 0 s; let s n; end; nil n; repeat 100; new g 5; end
sum s s 0 99
}=> 0; {1..3*warehouse %; s 25 25; dropped 0; }survivors 52; {0..25*1 % 1; }1 124 5; {0..25*2 % 1; }2 124 5
$ run; gcscript 2; fields 16; {3*warehouse; new r 1; new l 2; set r 0 l; new l 2; set r 1 l; new l 2; set r 2 l
new l 2; set r 3 l; new l 2; set r 4 l; new l 2; set r 5 l; new l 2; set r 6 l; new l 2; set r 7 l; new l 2; set r 8 l
new l 2; set r 9 l; new l 2; set r 10 l; new l 2; set r 11 l; new l 2; set r 12 l; new l 2; set r 13 l; new l 2
set r 14 l; new l 3; set r 15 l; nil l; repeat 60; new g 4; end; get l r 15; say f l
}=> 0; {1..4*warehouse %; f 3; dropped 0; }survivors 54; 1 0 1; {1..16*1 % 2; }1 16 3; 1 76 4; 2 0 1; {1..16*2 % 2
}2 16 3; 2 76 4; 3 0 1; {1..16*3 % 2; }3 16 3; 3 76 4
$ run; gcscript 1; {4*warehouse; new k 9; repeat 8; new m 1; set m 0 k; let k m; collect; end; sum s k 0 99
}=> 0; {1..5*warehouse %; s 9 17; dropped 0; }survivors 36; {1..5*% 0 9; % 1 1; % 2 1; % 3 1; % 4 1; % 5 1; % 6 1
% 7 1; % 8 1
}$ run; gcscript 3; fields 4; catalogue; nil s; repeat 8; new n 1; set n 0 s; let s n; end; season; nil s; repeat 8
new n 2; set n 0 s; let s n; end; {3*warehouse; cat x s; repeat 60; new o 3; set o 0 x; set x 1 o; end; sum t x 0 99
nil x; season; cat y s; set o 1 y; repeat 60; new g 4; end; get z o 0; sum u z 0 99; nil y; get z o 1; sum v z 0 99
}=> 0; warehouse 1; t 8 8; u 8 8; v 8 16; dropped 60; warehouse 2; t 8 8; u 8 8; v 8 16; dropped 60; warehouse 3
t 8 8; u 8 8; v 8 16; dropped 60; survivors 22; {0..8*0 % 1; }{8..16*0 % 2; }{1..4*% 59 3; % 119 4
}$ run; gcscript 1; {2*warehouse; nil s; repeat 32; new n 1; set n 0 s; let s n; end; sum s s 0 99; nil s; nil n
repeat 32; new n 2; set n 0 s; let s n; end; sum t s 0 99; nil s; nil n
}=> 0; {1..3*warehouse %; s 32 32; t 32 64; dropped 0; }survivors 0
";

/// A chain of more objects than cells. Each takes three commands, behind a first one. The last number is left out.
const FULL: &str =
    "$ run; gcscript 1; warehouse; nil x; repeat 129; new y 1; set y 0 x; let x y; end
=> 3; full section 1; position 0 0; position 1 ";

const SHAPES: &str = "--workers 1 --tracers 0 --packets 2 --entries 2
--workers 1 --tracers 1 --packets 3 --entries 2
--workers 1 --tracers 8 --packets 2 --entries 3
--workers 2 --tracers 0 --packets 3 --entries 2
--workers 2 --tracers 1 --packets 2 --entries 3
--workers 2 --tracers 8 --packets 3 --entries 3
--workers 32 --tracers 0 --packets 2 --entries 3
--workers 32 --tracers 1 --packets 3 --entries 3
--workers 32 --tracers 8 --packets 2 --entries 2
";

/// Fails if a shape changes what is written, or the heap isn't full after so many commands. None if there is no memory.
fn is_narrow<R: Abort + AllocGlobal + Threads + Wait + Sync>(
    rt: &R,
    cells: &str,
    position: u32,
) -> Option<()> {
    let full = format!(in rt.alloc(); "{FULL}{position}\n").ok()?;
    for shape in SHAPES.lines() {
        let options = format!(in rt.alloc(); "--cells {cells} {shape}").ok()?;
        all_hold(rt, NARROW, options.as_str());
        all_hold(rt, full.as_str(), options.as_str());
    }
    Some(())
}

#[test]
fn narrow_heaps_change_nothing(rt: HostRuntime) {
    let is_done = is_narrow(&rt, "64", 193).is_some() && is_narrow(&rt, "128", 385).is_some();
    assert!(rt; is_done, "memory");
}

/// Two objects beside a thousand; a catalogue's old and new chain; chains that only their last leaf keeps.
const EXTREMES: &str =
    "$ run --cells=64; gcscript 1; {8*warehouse; new a 1; new b 2; set a 0 b; repeat 1000; new c 3; end; sum s a 0 9
}=> 0; {1..9*warehouse %; s 2 3; dropped 0; }survivors 24; {1..9*% 0 1; % 1 2; % 1001 3
}$ run --cells=128; gcscript 3; fields 4; catalogue; nil s; repeat 20; new n 1; set n 0 s; let s n; end; season; nil s
repeat 20; new n 2; set n 0 s; let s n; end; {5*warehouse; cat x s; repeat 300; new o 3; set o 0 x; set o 1 o
set x 1 o; end; sum t x 0 99; collect; season; cat y s; set o 2 y; repeat 300; new g 4; end; get z o 2; sum u z 0 99
collect; get z o 1; say a z
}=> 0; warehouse 1; t 20 20; u 20 40; a 3; dropped 300; warehouse 2; t 20 20; u 20 40; a 3; dropped 300; warehouse 3
t 20 20; u 20 40; a 3; dropped 300; warehouse 4; t 20 20; u 20 40; a 3; dropped 300; warehouse 5; t 20 20; u 20 40
a 3; dropped 300; survivors 50; {0..20*0 % 1; }{20..40*0 % 2; }{1..6*% 299 3; % 599 4
}$ run --cells=512; gcscript 1; {4*warehouse; nil spine; repeat 40; new n 1; set n 0 spine; new l 2; set n 1 l
set l 2 n; let spine n; end; collect; sum s spine 0 200; nil spine; nil n; repeat 400; new g 5; end; get n l 2
say m n
}=> 0; {1..5*warehouse %; s 40 40; m 1; dropped 0; }survivors 324; {40*1 & 1; 1 & 2; }1 479 5; {40*2 & 1; 2 & 2
}2 479 5; {40*3 & 1; 3 & 2; }3 479 5; {40*4 & 1; 4 & 2; }4 479 5
";

const OPTIONS: &str = "--workers=8 --tracers=8 --packets=2 --entries=2
--workers=32 --tracers=8 --packets=2 --entries=2
--workers=1 --tracers=0 --packets=2 --entries=2
--workers 8
--workers 1 --tracers 0
--workers 2 --tracers 0
--workers 4 --tracers 0
--workers 1 --tracers 2
--workers 2 --tracers 2
--workers 4 --tracers 2
--packets 2
--packets 1024
--entries 2
--entries 512
";

#[test]
fn extremes_change_nothing(rt: HostRuntime) {
    for options in OPTIONS.lines() {
        all_hold(&rt, EXTREMES, options);
    }
}
