//! The program's call: its words, its streams, its status.

ghost use Rattle.std.specs.Prelude.{◌≡◌, ℕ, map, string_bytes, IfSome};
ghost use Rattle.mum_io.specs.Outside.{Rose};
ghost use Rattle.mum_server.specs.End.{memory_line, said};
ghost use Rattle.mum_server.specs.Plain.{RunsPlainly};
ghost use Rattle.mum_server.specs.Program.{Tells, Ends, ReadsCounted, WritesCounted, Reports};
ghost use Rattle.mum_server.specs.Program.{exercise_outcome, outcome_of};
ghost use Rattle.mum_server.specs.declared.command.Command.TheVariants.{Exercise};
ghost use Rattle.mum_server.specs.declared.end.End.TheVariants.{Faulty};

use crate::audit::audit_input;
use crate::command::{Command, command_of};
use crate::end::{End, LineFault, MEMORY_LINE, READ_FAULT_LINE, WRITE_FAULT_LINE};
use crate::replay::replay;
use mum_exercise::account;
use mum_io::{Sink, Source, write_all};
use std::alloc::Global;

pub(crate) const USAGE_LINE: &str = "usage: murmur replay | audit | exercise SEED STEPS | \
    serve ADDRESS SESSIONS [journal] [view ADDRESS VIEWS] [keep PATH]\n";

// Runs an exercise, and writes the line of what came of it.
fn run_exercise<O: Sink>(alloc: Global, seed: u64, rounds: u32, output: &mut O) -> End
    ensures ends { Ends (exercise_outcome seed rounds) result (O.written output.old) (O.written output.new) }
    ensures writes { WritesCounted result (O.faults output.old) (O.faults output.new) }
    ensures no_read { result ≡ End.ReadFault → ⊥ }
{
    let Ok(line) = account(alloc, seed, rounds) else {
        return End::OutOfMemory;
    };
    match write_all(output, line.as_bytes()) {
        Ok(()) => End::Finished,
        Err(_) => End::WriteFault,
    }
}

// Runs what a command asks for. An exercise leaves the input alone.
fn run<I: Source, O: Sink>(alloc: Global, command: Command, input: &mut I, output: &mut O) -> End
    ensures ends { IfSome (outcome_of command (I.left input.old))
        (λ outcome. Ends outcome result (O.written output.old) (O.written output.new)) }
    ensures reads { ReadsCounted result (I.faults input.old) (I.faults input.new) }
    ensures writes { WritesCounted result (O.faults output.old) (O.faults output.new) }
    ensures untouched { (seed rounds : ℕ) → command ≡ Exercise seed rounds → (input.new ≡ input.old)
        × (result ≡ End.ReadFault → ⊥) }
{
    match command {
        Command::Replay => replay(alloc, input, output),
        Command::Audit => audit_input(alloc, input, output),
        Command::Exercise { seed, rounds } => run_exercise(alloc, seed, rounds, output),
    }
}

// Writes a line to the error stream, as far as that takes it.
pub(crate) fn say<E: Sink>(errors: &mut E, line: &str)
    ensures { Tells line.now (E.written errors.old) (E.written errors.new)
        (Rose (E.faults errors.old) (E.faults errors.new)) }
{
    let _ = write_all(errors, line.as_bytes());
}

/// Says that memory ran out, and gives the status of it. It takes no memory.
pub fn out_of_memory<E: Sink>(errors: &mut E) -> u8
    ensures status { result ≡ 70 }
    ensures says { Tells memory_line (E.written errors.old) (E.written errors.new)
        (Rose (E.faults errors.old) (E.faults errors.new)) }
{
    say(errors, MEMORY_LINE);
    70
}

// Says what is wrong with a line, and gives the status of it, or that of out of memory.
fn report_fault<E: Sink>(alloc: Global, n: u64, fault: &LineFault, errors: &mut E) -> u8
    ensures { Reports (Faulty n fault.now) result (E.written errors.old) (E.written errors.new)
        (Rose (E.faults errors.old) (E.faults errors.new)) }
{
    let mut text = String::new(alloc);
    if fault.push(alloc, &mut text, n).is_err() {
        return out_of_memory(errors);
    }
    say(errors, text.as_str());
    fault.status()
}

// Says how the run ended, and gives its status. Only the line of a fault takes memory.
pub(crate) fn report<E: Sink>(alloc: Global, end: &End, errors: &mut E) -> u8
    ensures { Reports end.now result (E.written errors.old) (E.written errors.new)
        (Rose (E.faults errors.old) (E.faults errors.new)) }
{
    match end {
        End::Finished => {
            say(errors, "");
            0
        }
        End::Faulty { line, fault } => report_fault(alloc, *line, fault, errors),
        End::ReadFault => {
            say(errors, READ_FAULT_LINE);
            3
        }
        End::WriteFault => {
            say(errors, WRITE_FAULT_LINE);
            4
        }
        End::OutOfMemory => out_of_memory(errors),
    }
}

/// The program without `serve`. `replay` reads a recording from the input and writes its transcript to the output;
/// `audit` reads a journal and writes one line of counts where it is legal; `exercise SEED STEPS` runs a session that is
/// drawn from a seed, and writes one line of what came of it. What goes wrong is said in one line on the error stream,
/// and the exit status says it. Other words are answered by the usage line.
pub fn run_plain<I: Source, O: Sink, E: Sink>(
    alloc: Global,
    words: &[String],
    input: &mut I,
    output: &mut O,
    errors: &mut E,
) -> u8
    ensures { RunsPlainly (map string_bytes words.now)
        (record { left = I.left input.old; faults = I.faults input.old })
        (record { left = I.left input.new; faults = I.faults input.new })
        (record { written = O.written output.old; faults = O.faults output.old })
        (record { written = O.written output.new; faults = O.faults output.new })
        (record { written = E.written errors.old; faults = E.faults errors.old })
        (record { written = E.written errors.new; faults = E.faults errors.new })
        (input.new ≡ input.old) (output.new ≡ output.old) result }
{
    let Some(command) = command_of(words) else {
        say(errors, USAGE_LINE);
        return 1;
    };
    let end = run(alloc, command, input, output);
    report(alloc, &end, errors)
}
