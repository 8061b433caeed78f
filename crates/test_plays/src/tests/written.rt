//! Whole runs, written down as texts.
//!
//! A case is `$ ` and the words, then the source, `=> ` and the status, and the text that is to be written, line by
//! line, or in pieces of the sizes that stand behind the status.
//!
//! ```text
//! $ run --cells 64; gcscript 1
//! => 0; survivors 0
//! ```
//!
//! In a source or a text `; ` ends a line, too, and braces enclose what is repeated: `{3*ab}` stands for ababab,
//! `{0*x}` for nothing, and `{1..4*a%}` for a1a2a3: the last number is left out. In `{2*a&b&}`, which stands for
//! a0b1a2b3, each `&` counts on.
use crate::tests::outside::{answer_of, sure};
use std::alloc::{AllocError, Global};
use std::process::Abort;
use std::sync::Wait;
use std::thread::Threads;

fn push_number(alloc: Global, whole: &mut String, number: u32) -> Result<(), AllocError> {
    whole.push_str(format!(in alloc; "{number}")?.as_str())
}

fn push_body(
    alloc: Global,
    whole: &mut String,
    body: &str,
    number: u32,
    count: u32,
) -> Result<u32, AllocError> {
    let mut count = count;
    for c in body.chars() {
        if c == '%' {
            push_number(alloc, whole, number)?;
        } else if c == '&' {
            push_number(alloc, whole, count)?;
            count = count.saturating_add(1);
        } else {
            whole.push(c)?;
        }
    }
    Ok(count)
}

fn push_repeated(alloc: Global, whole: &mut String, piece: &str) -> Option<()> {
    let (range, body) = piece.split_once('*')?;
    let (first, end) = range.split_once("..").unwrap_or(("0", range));
    let first = first.parse::<u32>().ok()?;
    let mut count = first;
    for number in first..end.parse::<u32>().ok()? {
        count = push_body(alloc, whole, body, number, count).ok()?;
    }
    Some(())
}

/// The text that is meant. None if there is no memory, or it has no such form.
pub fn expanded(alloc: Global, text: &str) -> Option<String> {
    let lines = text.replace(alloc, "; ", "\n").ok()?;
    let mut whole = String::new(alloc);
    for piece in lines.as_str().split('}') {
        let (plain, repeated) = piece.split_once('{').unwrap_or((piece, "0*"));
        whole.push_str(plain).ok()?;
        push_repeated(alloc, &mut whole, repeated)?;
    }
    Some(whole)
}

/// A case, as it is told.
#[derive(Drop)]
pub struct Case<'a> {
    pub words: &'a str,
    pub source: String,
    pub status: u8,
    pub sizes: &'a str,
    pub text: String,
}

/// The case that is told behind its `$ `. None if it is no case, or there is no memory.
pub fn case_of(alloc: Global, told: &str) -> Option<Case<'_>> {
    let (words, rest) = told.split_once("; ")?;
    let (source, rest) = rest.split_once("=> ")?;
    let (end, text) = rest.split_once("; ")?;
    let (status, sizes) = end.split_once(" in ").unwrap_or((end, ""));
    Some(Case {
        words,
        source: expanded(alloc, source)?,
        status: status.parse::<u8>().ok()?,
        sizes,
        text: expanded(alloc, text)?,
    })
}

fn is_answered<R: AllocGlobal + Threads + Wait + Sync>(
    rt: &R,
    told: &str,
    more: &str,
) -> Option<bool> {
    let case = case_of(rt.alloc(), told)?;
    let words = format!(in rt.alloc(); "{} {more}", case.words).ok()?;
    let (status, text) = answer_of(rt, words.as_str(), &sure(case.source.as_bytes()))?;
    Some(status == case.status && text.as_slice() == case.text.as_bytes())
}

/// Fails if one of the cases isn't answered so, with these words behind its own.
pub fn all_hold<R: Abort + AllocGlobal + Threads + Wait + Sync>(rt: &R, cases: &str, more: &str) {
    for told in cases.split("$ ").skip(1) {
        let is_answered = is_answered(rt, told, more);
        assert!(rt; is_answered == Some(true), "{is_answered:?} {more}: {told}");
    }
}
