//! `run` and `convert` both tell a script's fault. One of version 2 or 3 without a fault converts to itself.
use crate::tests::written::all_hold;
use std::alloc::Global;
use std::process::Abort;
use std::sync::Wait;
use std::thread::Threads;

/// A number too large comes before an unknown name in the same line, an open `repeat` before everything else of a
/// section line.
pub const FAULTS: &str = "$ => 2 BadHeader
$ ; => 2 BadHeader
$  gcscript  4=> 2 BadHeader
$ gcscript 1; é=> 1 NotAscii offset 11
$ gcscript 1\r; => 1 NotAscii offset 10
$ gcscript 1; \0=> 1 NotAscii offset 11
$ gcscript 1; #\t=> 1 NotAscii offset 12
$ bogus; \x7f=> 1 NotAscii offset 6
$ gcscript 1; warehouseÿ; => 1 NotAscii offset 20
$ gcscript 1; warehouse; nil x; say a y; bogus; => 4 UnknownName line 4
$ gcscript 1; warehouse; repeat 3; new x 1; => 7 RepeatOpen line 3
$ gcscript 1; warehouse; new x 4294967296; => 6 NumberTooLarge line 3
$ gcscript 1; warehouse; nil x; repeat 65537; say a x; end; => 10 TooManyLines
$ gcscript 1; # note; catalogue; say a b; => 3 BadLine line 4
$ gcscript 1; warehouse; end; => 3 BadLine line 3
$ gcscript 2; fields 1; warehouse; new x 5; set x 1 x; sum a x 0 3; => 6 NumberTooLarge line 5
$ gcscript 2; fields 17; => 6 NumberTooLarge line 2
$ gcscript 2; warehouse; => 3 BadLine line 2
$ gcscript 2; => 2 BadHeader
$ gcscript 3; ; # note; => 2 BadHeader
$ gcscript 2; fields 0; => 3 BadLine line 2
$ gcscript 1; fields 4; => 3 BadLine line 2
$ gcscript 2; fields 4; warehouse; season; => 3 BadLine line 4
$ gcscript 3; fields 4; season; => 3 BadLine line 3
$ gcscript 3; fields 4; warehouse; repeat 1; season; => 3 BadLine line 5
$ gcscript 1; nil x; => 3 BadLine line 2
$ gcscript 1; warehouse; catalogue; => 3 BadLine line 3
$ gcscript 1; warehouse; repeat 1; repeat 1; end; end; => 3 BadLine line 4
$ gcscript 1; warehouse; repeat 1; end; end; => 3 BadLine line 5
$ gcscript 1; warehouse; repeat 1; warehouse now; => 3 BadLine line 4
$ gcscript 1; warehouse; nil a0; nil a1; nil a2; nil a3; nil a4; nil a5; nil a6; nil a7; nil a8; nil a9; nil a10
nil a11; nil a12; nil a13; nil a14; nil a15; nil a16; nil a17; nil a18; nil a19; nil a20; nil a21; nil a22; nil a23
nil a24; nil a25; nil a26; nil a27; nil a28; nil a29; nil a30; nil a31; nil a32; => 5 TooManyNames line 35
$ gcscript 1; warehouse; warehouse; warehouse; warehouse; warehouse; warehouse; warehouse; warehouse; warehouse
warehouse; warehouse; warehouse; warehouse; warehouse; warehouse; warehouse; warehouse; warehouse; warehouse
warehouse; warehouse; warehouse; warehouse; warehouse; warehouse; warehouse; warehouse; warehouse; warehouse
warehouse; warehouse; warehouse; warehouse; => 8 TooManySections line 34
$ gcscript 1; warehouse; repeat 2000000; nil x; end; nil x; => 9 TooManyCommands
$ gcscript 1; warehouse; set x 4 y; => 6 NumberTooLarge line 3
$ gcscript 1; warehouse; repeat 1; catalogue; => 7 RepeatOpen line 3
";

/// Lines of a warehouse, from line 3 on.
const LINES: &str = "$ nil abcdefghijklmno_; => itself
$ nil abcdefghijklmno_7; => 3 BadLine line 4
$ nil x; say 12345678901234567890123456789012 x; => itself
$ nil x; say 123456789012345678901234567890123 x; => 3 BadLine line 5
$ nil Name; => 3 BadLine line 4
$ nil 7up; => 3 BadLine line 4
$ nil _x; => 3 BadLine line 4
$ nil new; say # new; let end new; say \"~ end; => itself
$ new x 4294967295=> itself
$ new x 4294967296; => 6 NumberTooLarge line 4
$ new x 18446744073709551616; => 6 NumberTooLarge line 4
$ new x 18446744073709551621; => 6 NumberTooLarge line 4
$ new x 340282366920938463463374607431768211456; => 6 NumberTooLarge line 4
$ new x +5; => 3 BadLine line 4
$ new x -0; => 3 BadLine line 4
$ new x 5x; => 3 BadLine line 4
$ new x; => 3 BadLine line 4
$ new x 5 5; => 3 BadLine line 4
$ nil x; put x 4294967295; put x 4294967296; => 6 NumberTooLarge line 6
$ nil x; set x 3 x; get x x 3; sum s x 3 65536; => itself
$ nil x; set x 4 x; => 6 NumberTooLarge line 5
$ nil x; get x x 4294967296; => 6 NumberTooLarge line 5
$ nil x; sum s x 4 1; => 6 NumberTooLarge line 5
$ nil x; sum s x 0 65537; => 6 NumberTooLarge line 5
$ repeat 2000000; end; repeat 0; nil x; end; say a x; => itself
$ repeat 2000001; end; => 6 NumberTooLarge line 4
$ repeat 4294967297; end; => 6 NumberTooLarge line 4
$ nil x; repeat 1999999; nil x; end; => itself
$ nil x; repeat 1999999; nil x; end; nil x; => 9 TooManyCommands
$ nil x; repeat 65536; say a x; end; => itself
$ nil x; repeat 65536; say a x; end; say a x; => 10 TooManyLines
$ get x x 0; => 4 UnknownName line 4
$ let x x; => 4 UnknownName line 4
";

/// Lines of a script, from line 3 on. 2,000,000 times 2,148 is past 2^32.
const SECTIONS: &str = "$ {32*warehouse
}=> itself
$ {33*warehouse
}=> 8 TooManySections line 35
$ catalogue; {32*warehouse
}=> itself
$ warehouse; {63*season
}=> itself
$ warehouse; {64*season
}=> 15 TooManySeasons line 67
$ catalogue; {63*season; }warehouse; season; => itself
$ warehouse; new x {5000*0}4294967295; => itself
$ warehouse; new x {5000*0}4294967296; => 6 NumberTooLarge line 4
$ {5000*; }warehouse; => itself
$ warehouse; repeat 2000000; {2148*nil x; }end; => 9 TooManyCommands
$ warehouse; {2148*repeat 2000000; nil x; end
}=> 9 TooManyCommands
$ warehouse; {32*nil a%; }let a31 a0; warehouse; nil b; => itself
$ warehouse; {32*nil a%; }nil b; => 5 TooManyNames line 36
$ warehouse; {32*nil a%; }get b c 0; => 4 UnknownName line 36
$ warehouse; {32*nil a%; }get b a0 0; => 5 TooManyNames line 36
";

/// The cases of a script behind this head, whose fault is told or, as `itself` says, which converts to itself.
fn cases_of(alloc: Global, head: &str, row: &str) -> Option<String> {
    let (lines, fault) = row.split_once("=> ")?;
    let script = format!(in alloc; "{head}{lines}").ok()?;
    if fault == "itself\n" {
        format!(in alloc; "$ convert; {script}=> 0; {script}").ok()
    } else {
        format!(in alloc; "$ run; {script}=> 2; {fault}$ convert; {script}=> 2; {fault}").ok()
    }
}

fn all_are_judged<R: Abort + AllocGlobal + Threads + Wait + Sync>(rt: &R, rows: &str, head: &str) {
    for row in rows.split("$ ").skip(1) {
        let Some(cases) = cases_of(rt.alloc(), head, row) else {
            panic!(rt; "no case, or no memory: {row}")
        };
        all_hold(rt, cases.as_str(), "");
    }
}

#[test]
fn tells_faults(rt: HostRuntime) {
    all_are_judged(&rt, FAULTS, "");
}

#[test]
fn judges_lines(rt: HostRuntime) {
    all_are_judged(&rt, LINES, "gcscript 2; fields 4; warehouse; ");
    all_are_judged(&rt, SECTIONS, "gcscript 3; fields 1; ");
}
