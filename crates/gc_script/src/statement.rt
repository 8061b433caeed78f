ghost use Rattle.std.specs.Prelude.{◌≡◌, map};
ghost use Rattle.gc_script.specs.ScriptText.{number_of};
ghost use Rattle.gc_script.specs.Statement.{SumOf, Command, Statement as Said, statement, with_number, alone, new_line, let_line, nil_line, set_line, get_line, cat_line, put_line, say_line, sum_line, repeat_line, fields_line, by_keyword};
ghost use Rattle.gc_script.specs.Said.{said, capped, by_assigning, by_block};

use crate::label::Label;
use crate::text::{is_label, is_name, is_note, is_same, number_of};

/// A command with its names as they are written; numbers are at most `LARGE`.
#[derive(Clone, Copy)]
pub enum Spoken<'a> {
    New {
        v: &'a str,
        n: u64,
    },
    Let {
        v: &'a str,
        w: &'a str,
    },
    Nil {
        v: &'a str,
    },
    Set {
        v: &'a str,
        i: u64,
        w: &'a str,
    },
    Get {
        v: &'a str,
        w: &'a str,
        i: u64,
    },
    Cat {
        v: &'a str,
        name: &'a str,
    },
    Put {
        v: &'a str,
        n: u64,
    },
    Say {
        label: Label<'a>,
        v: &'a str,
    },
    Sum {
        label: Label<'a>,
        v: &'a str,
        i: u64,
        limit: u64,
    },
    Collect,
}

/// What a line is.
#[derive(Clone, Copy)]
pub enum Statement<'a> {
    Blank,
    Fields(u64),
    Catalogue,
    Warehouse,
    Season,
    Repeat(u64),
    End,
    Command(Spoken<'a>),
    Wrong,
}

fn new_of<'a>(words: &[&'a str]) -> Statement<'a>
    ensures { said result ≡ capped (new_line (map (λ w. w.now) words.now)) }
{
    match words {
        [v, n] if is_name(v) => match number_of(n) {
            Some(n) => Statement::Command(Spoken::New { v: *v, n }),
            None => Statement::Wrong,
        },
        _ => Statement::Wrong,
    }
}

fn let_of<'a>(words: &[&'a str]) -> Statement<'a>
    ensures { said result ≡ capped (let_line (map (λ w. w.now) words.now)) }
{
    match words {
        [v, w] if is_name(v) && is_name(w) => Statement::Command(Spoken::Let { v: *v, w: *w }),
        _ => Statement::Wrong,
    }
}

fn nil_of<'a>(words: &[&'a str]) -> Statement<'a>
    ensures { said result ≡ capped (nil_line (map (λ w. w.now) words.now)) }
{
    match words {
        [v] if is_name(v) => Statement::Command(Spoken::Nil { v: *v }),
        _ => Statement::Wrong,
    }
}

fn set_of<'a>(words: &[&'a str]) -> Statement<'a>
    ensures { said result ≡ capped (set_line (map (λ w. w.now) words.now)) }
{
    match words {
        [v, i, w] if is_name(v) && is_name(w) => match number_of(i) {
            Some(i) => Statement::Command(Spoken::Set { v: *v, i, w: *w }),
            None => Statement::Wrong,
        },
        _ => Statement::Wrong,
    }
}

fn get_of<'a>(words: &[&'a str]) -> Statement<'a>
    ensures { said result ≡ capped (get_line (map (λ w. w.now) words.now)) }
{
    match words {
        [v, w, i] if is_name(v) && is_name(w) => match number_of(i) {
            Some(i) => Statement::Command(Spoken::Get { v: *v, w: *w, i }),
            None => Statement::Wrong,
        },
        _ => Statement::Wrong,
    }
}

fn cat_of<'a>(words: &[&'a str]) -> Statement<'a>
    ensures { said result ≡ capped (cat_line (map (λ w. w.now) words.now)) }
{
    match words {
        [v, name] if is_name(v) && is_name(name) => Statement::Command(Spoken::Cat {
            v: *v,
            name: *name,
        }),
        _ => Statement::Wrong,
    }
}

fn put_of<'a>(words: &[&'a str]) -> Statement<'a>
    ensures { said result ≡ capped (put_line (map (λ w. w.now) words.now)) }
{
    match words {
        [v, n] if is_name(v) => match number_of(n) {
            Some(n) => Statement::Command(Spoken::Put { v: *v, n }),
            None => Statement::Wrong,
        },
        _ => Statement::Wrong,
    }
}

fn say_of<'a>(words: &[&'a str]) -> Statement<'a>
    ensures { said result ≡ capped (say_line (map (λ w. w.now) words.now)) }
{
    match words {
        [label, v] if is_label(label) && is_name(v) => Statement::Command(Spoken::Say {
            label: Label { text: *label },
            v: *v,
        }),
        _ => Statement::Wrong,
    }
}

/// A walk along a field, as two words say.
fn walk_of<'a>(label: Label<'a>, v: &'a str, i: &str, limit: &str) -> Statement<'a>
    ensures { said result ≡ capped (with_number (number_of i.now) (λ i. with_number (number_of limit.now) (λ limit. Command (SumOf label.entry.text.now v.now i limit)))) }
{
    match number_of(i) {
        Some(i) => match number_of(limit) {
            Some(limit) => Statement::Command(Spoken::Sum { label, v, i, limit }),
            None => Statement::Wrong,
        },
        None => Statement::Wrong,
    }
}

fn sum_of<'a>(words: &[&'a str]) -> Statement<'a>
    ensures { said result ≡ capped (sum_line (map (λ w. w.now) words.now)) }
{
    match words {
        [label, v, i, limit] if is_label(label) && is_name(v) => {
            walk_of(Label { text: *label }, *v, i, limit)
        }
        _ => Statement::Wrong,
    }
}

fn repeat_of<'a>(words: &[&'a str]) -> Statement<'a>
    ensures { said result ≡ capped (repeat_line (map (λ w. w.now) words.now)) }
{
    match words {
        [n] => match number_of(n) {
            Some(n) => Statement::Repeat(n),
            None => Statement::Wrong,
        },
        _ => Statement::Wrong,
    }
}

fn fields_of<'a>(words: &[&'a str]) -> Statement<'a>
    ensures { said result ≡ capped (fields_line (map (λ w. w.now) words.now)) }
{
    match words {
        [n] => match number_of(n) {
            Some(n) => Statement::Fields(n),
            None => Statement::Wrong,
        },
        _ => Statement::Wrong,
    }
}

/// A line of one word.
fn alone<'a>(words: &[&'a str], statement: Statement<'a>) -> Statement<'a>
    ensures { (s : Said) → said statement.entry ≡ capped s → said result ≡ capped (alone (map (λ w. w.now) words.now) s) }
{
    match words {
        [] => statement,
        _ => Statement::Wrong,
    }
}

fn by_block<'a>(keyword: &str, words: &[&'a str]) -> Statement<'a>
    ensures { said result ≡ capped (by_block keyword.now (map (λ w. w.now) words.now)) }
{
    if is_same(keyword, "say") {
        say_of(words)
    } else if is_same(keyword, "sum") {
        sum_of(words)
    } else if is_same(keyword, "collect") {
        alone(words, Statement::Command(Spoken::Collect))
    } else if is_same(keyword, "repeat") {
        repeat_of(words)
    } else if is_same(keyword, "end") {
        alone(words, Statement::End)
    } else {
        Statement::Wrong
    }
}

fn by_assigning<'a>(keyword: &str, words: &[&'a str]) -> Statement<'a>
    ensures { said result ≡ capped (by_assigning keyword.now (map (λ w. w.now) words.now)) }
{
    if is_same(keyword, "new") {
        new_of(words)
    } else if is_same(keyword, "let") {
        let_of(words)
    } else if is_same(keyword, "nil") {
        nil_of(words)
    } else if is_same(keyword, "set") {
        set_of(words)
    } else if is_same(keyword, "get") {
        get_of(words)
    } else if is_same(keyword, "cat") {
        cat_of(words)
    } else if is_same(keyword, "put") {
        put_of(words)
    } else {
        by_block(keyword, words)
    }
}

fn by_keyword<'a>(keyword: &str, words: &[&'a str]) -> Statement<'a>
    ensures { said result ≡ capped (by_keyword keyword.now (map (λ w. w.now) words.now)) }
{
    if is_note(keyword) {
        Statement::Blank
    } else if is_same(keyword, "fields") {
        fields_of(words)
    } else if is_same(keyword, "season") {
        alone(words, Statement::Season)
    } else if is_same(keyword, "catalogue") {
        alone(words, Statement::Catalogue)
    } else if is_same(keyword, "warehouse") {
        alone(words, Statement::Warehouse)
    } else {
        by_assigning(keyword, words)
    }
}

/// What the line of these words is.
pub fn statement_of<'a>(words: &[&'a str]) -> Statement<'a>
    ensures { said result ≡ capped (statement (map (λ w. w.now) words.now)) }
{
    match words {
        [] => Statement::Blank,
        [keyword, rest @ ..] => by_keyword(keyword, rest),
    }
}
