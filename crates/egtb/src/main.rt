//! The program `egtb`: hands its words and the standard streams to the library and ends with the status that it
//! answers.
#![tactic(auto)]

use egt_table::{FromStd, ToStd};
use std::env::{Env, FillError};
use std::io::ErrorKind;
use std::process::ExitCode;
use std::{env, io};

/// In place of words that are not text: a word that is no command, so that they are refused as wrong words are.
const NO_TEXT: [&str; 2] = ["egtb", "\u{FFFD}"];

/// The words behind the program's own path, which may be any bytes.
#[derive(Drop)]
struct Behind<'a> {
    rt: &'a HostRuntime,
}

impl Env for Behind<'_> {
    fn arg(&self, i: usize, buf: &mut [u8]) -> Result<usize, FillError> {
        match i.checked_add(1) {
            Some(next) => self.rt.arg(next, buf),
            None => Err(FillError::NotPresent),
        }
    }

    fn var(&self, name: &str, buf: &mut [u8]) -> Result<usize, FillError> {
        self.rt.var(name, buf)
    }

    fn var_at(&self, i: usize, buf: &mut [u8]) -> Result<usize, FillError> {
        self.rt.var_at(i, buf)
    }
}

/// Runs the program on these words.
fn run_on(rt: &HostRuntime, words: &[&str]) -> u8 {
    egt_tool::run(
        rt,
        words,
        &mut FromStd::new(rt.stdin()),
        &mut ToStd::new(rt.stdout()),
        &mut ToStd::new(rt.stderr()),
    )
}

/// Runs the program on its words.
fn run(rt: &HostRuntime) -> io::Result<u8> {
    let mut words = Vec::new(rt.alloc());
    for word in env::args(&(Behind { rt }, rt.alloc()))? {
        words.push(word)?;
    }
    let mut texts = Vec::new(rt.alloc());
    texts.push("egtb")?;
    for word in &words {
        texts.push(word.as_str())?;
    }
    Ok(run_on(rt, texts.as_slice()))
}

fn main(rt: HostRuntime) -> io::Result<ExitCode> {
    match run(&rt) {
        Ok(status) => Ok(ExitCode::from(status)),
        Err(error) if error.kind() == ErrorKind::OutOfMemory => {
            let _ = eprintln!(rt; "error memory");
            Ok(ExitCode::from(4))
        }
        Err(error) if error.kind() == ErrorKind::InvalidData => {
            Ok(ExitCode::from(run_on(&rt, &NO_TEXT)))
        }
        Err(error) => Err(error),
    }
}
