//! A script that is cut after each of its bytes.
use crate::tests::written::all_hold;
use std::alloc::Global;

const WHOLE: &str = "gcscript 1
catalogue
new item 40
warehouse
cat i item
set i 0 i
put i 7
say a i
new o 1
set o 2 i
get j o 2
say b j
";

/// The first and the last cut, and what is written then. Line 3 may end in another number, line 5 in a name that the
/// catalogue doesn't have.
const CUTS: &str = "$ 0 9; 2 BadHeader
$ 10 11; survivors 0
$ 12 19; 3 BadLine line 2
$ 20 21; survivors 0
$ 22 30; 3 BadLine line 3
$ 31 31; survivors 1; 0 0 4
$ 32 33; survivors 1; 0 0 40
$ 34 41; 3 BadLine line 4
$ 42 43; warehouse 1; dropped 0; survivors 1; 0 0 40
$ 44 49; 3 BadLine line 5
$ 50 52; 4 UnknownName line 5
$ 53 54; warehouse 1; dropped 0; survivors 1; 0 0 40
$ 55 62; 3 BadLine line 6
$ 63 64; warehouse 1; dropped 1; survivors 1; 0 0 40
$ 65 70; 3 BadLine line 7
$ 71 72; warehouse 1; dropped 2; survivors 1; 0 0 40
$ 73 78; 3 BadLine line 8
$ 79 80; warehouse 1; a 40; dropped 2; survivors 1; 0 0 40
$ 81 86; 3 BadLine line 9
$ 87 88; warehouse 1; a 40; dropped 2; survivors 2; 0 0 40; 1 0 1
$ 89 96; 3 BadLine line 10
$ 97 98; warehouse 1; a 40; dropped 2; survivors 2; 0 0 40; 1 0 1
$ 99 106; 3 BadLine line 11
$ 107 108; warehouse 1; a 40; dropped 2; survivors 2; 0 0 40; 1 0 1
$ 109 114; 3 BadLine line 12
$ 115 116; warehouse 1; a 40; b 40; dropped 2; survivors 2; 0 0 40; 1 0 1
";

fn cases_of(alloc: Global, end: usize, text: &str) -> Option<String> {
    let script = WHOLE.get(..end)?;
    let rest = WHOLE.get(11..end).unwrap_or("");
    if text.contains("survivors") {
        format!(in alloc;
            "$ run; {script}=> 0; {text}$ convert; {script}=> 0; gcscript 2; fields 4; {rest}"
        ).ok()
    } else {
        format!(in alloc; "$ run; {script}=> 2; {text}$ convert; {script}=> 2; {text}").ok()
    }
}

fn row_of(row: &str) -> Option<(usize, usize, &str)> {
    let (cuts, text) = row.split_once("; ")?;
    let (first, last) = cuts.split_once(' ')?;
    Some((
        first.parse::<usize>().ok()?,
        last.parse::<usize>().ok()?,
        text,
    ))
}

#[test]
fn judges_cuts(rt: HostRuntime) {
    for row in CUTS.split("$ ").skip(1) {
        let Some((first, last, text)) = row_of(row) else {
            panic!(rt; "no row: {row}")
        };
        for end in first..=last {
            let Some(cases) = cases_of(rt.alloc(), end, text) else {
                panic!(rt; "no memory: {row}")
            };
            all_hold(&rt, cases.as_str(), "");
        }
    }
}
