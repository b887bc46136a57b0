//! Why somebody was not heard: what the program answers over a recording or a journal, by the reasons of `mum_why`.
#![tactic(auto)]

mod answer;
mod audience;
mod caller;
mod cuts;
mod end;
mod heard;
mod hearers;
mod journal;
mod may;
mod names;
mod other;
mod packets;
mod permissions;
mod reasons;
mod recording;
mod route;
mod run;
mod spoken;
mod states;
mod story;
mod verdicts;
mod words;

use crate::answer::answer_input;
use crate::end::{End, report};
use crate::words::{Command, command_of};
use mum_config::DOCUMENT_LIMIT;
use mum_io::{Input, Output, ReadFault, read_up_to};
use std::fs::File;
use std::io::ErrorKind;
use std::process::ExitCode;
use std::rt::Env;
use std::{env, io};

// The words of the command line, without the program's name. A word that is not UTF-8 is an error of the kind
// `InvalidData`.
fn words_of(rt: &(impl Env + AllocGlobal)) -> io::Result<Vec<String>> {
    Ok(env::args(rt)?.skip(1).collect(rt.alloc())?)
}

// The bytes of a file, at most a few more than a configuration may have.
fn document_in(rt: &HostRuntime, path: &str) -> Result<Vec<u8>, End> {
    let Ok(file) = File::open(rt, path) else {
        return Err(End::ReadFault);
    };
    match read_up_to(rt.alloc(), &mut Input::new(file), DOCUMENT_LIMIT) {
        Ok(bytes) => Ok(bytes),
        Err(ReadFault::Failed) => Err(End::ReadFault),
        Err(ReadFault::OutOfMemory) => Err(End::OutOfMemory),
    }
}

// The bytes of the file that the last word names, where a configuration is asked about; else none.
fn document_of(rt: &HostRuntime, command: Command, words: &[String]) -> Result<Vec<u8>, End> {
    match (command, words) {
        (Command::Other, [_, path]) => document_in(rt, path.as_str()),
        _ => Ok(Vec::new(rt.alloc())),
    }
}

// What is asked by the words, or how it ends where nothing is.
fn asked(rt: &HostRuntime, words: &[String]) -> End {
    let Some(command) = command_of(words) else {
        return End::Usage;
    };
    let document = match document_of(rt, command, words) {
        Ok(document) => document,
        Err(end) => return end,
    };
    answer_input(
        rt.alloc(),
        command,
        document.as_slice(),
        &mut Input::new(rt.stdin()),
        &mut Output::new(rt.stdout()),
    )
}

fn main(rt: HostRuntime) -> ExitCode {
    let mut errors = Output::new(rt.stderr());
    let end = match words_of(&rt) {
        Ok(words) => asked(&rt, words.as_slice()),
        Err(error) => {
            if matches!(error.kind(), ErrorKind::OutOfMemory) {
                End::OutOfMemory
            } else {
                End::Usage
            }
        }
    };
    ExitCode::from(report(rt.alloc(), &end, &mut errors))
}
