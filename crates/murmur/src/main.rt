//! The server's program: it hands its words, the standard streams and the machine to the server, whose answer is the
//! exit status.
#![tactic(auto)]

use mum_edge::Machine;
use mum_io::{Input, Output};
use mum_server::{keeps_channels, later_roles, murmur, out_of_memory};
use mum_sql_keeper::SqlKeeper;
use std::io::{ErrorKind, IsTerminal};
use std::process::ExitCode;
use std::rt::Env;
use std::{env, io};

// The words of the command line, without the program's name. A word that is not UTF-8 is an error of
// the kind `InvalidData`.
fn words_of(rt: &(impl Env + AllocGlobal)) -> io::Result<Vec<String>> {
    Ok(env::args(rt)?.skip(1).collect(rt.alloc())?)
}

fn main(rt: HostRuntime) -> ExitCode {
    let mut errors = Output::new(rt.stderr());
    let words = match words_of(&rt) {
        Ok(words) => words,
        Err(error) => {
            if matches!(error.kind(), ErrorKind::OutOfMemory) {
                return ExitCode::from(out_of_memory(&mut errors));
            }
            // such words are no command, as no words are
            Vec::new(rt.alloc())
        }
    };
    let serves = matches!(words.as_slice(), [name, _, _, ..] if name.as_str() == "serve");
    if serves && rt.stdin().is_terminal() {
        let _unheard = eprintln!(rt; "murmur: reads the configuration from standard input");
    }
    // without memory there is no door and no crew
    let Ok(machine) = Machine::open(rt, rt.alloc(), later_roles(&words)) else {
        return ExitCode::from(out_of_memory(&mut errors));
    };
    let Machine {
        mut crew,
        door,
        view,
        clock,
    } = machine;
    // the role that keeps channels is woken by nothing else
    crew.later.hear_owner = keeps_channels(&words);
    let mut door = Some(door);
    let mut view = Some(view);
    let mut clock = Some(clock);
    let mut keeper = Some(SqlKeeper::new(rt));
    let status = murmur(
        &rt,
        rt.alloc(),
        &words,
        &mut Input::new(rt.stdin()),
        &mut Output::new(rt.stdout()),
        &mut errors,
        &mut door,
        &mut view,
        &mut crew,
        &mut clock,
        &mut keeper,
    );
    if let Some(keeper) = &mut keeper {
        keeper.close();
    }
    for door in [&door, &view] {
        if let Some(door) = door {
            door.listener().close();
        }
    }
    ExitCode::from(status)
}
