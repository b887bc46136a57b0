//! Journals and a step of a recording, read and written again, and the steps of an exercise.

use anyhow::{Result, bail};
use mum_record::{read_journal, read_step, write_journal, write_step};
use mum_server::generate;
use std::alloc::Global;

// Two users, one of whom says something.
const JOURNAL: &str = "journal 1\nworkers 1\nconfig -\n\
                       c 1 - 0002000000050a03616e6e accepted 1\n\
                       c 2 - 0002000000050a03626f62 accepted 2\n\
                       worker 0\nv 1 2 800103aabbcc 1 2/0/s\nx 1 end\nx 2 end\nend\n";

// Nobody came to a server of the greatest limits.
const LIMITED_JOURNAL: &str = "journal 2\nworkers 1\nlimits 512 2048\nconfig -\nworker 0\nend\n";

const STEP: &str = "frame 1 0002000000050a03616e6e";

fn journal(alloc: Global, text: &str, told: &mut String) -> Result<()> {
    let journal = match read_journal(alloc, text.as_bytes()) {
        Ok(journal) => journal,
        Err(fault) => bail!("{fault}"),
    };
    let text = write_journal(alloc, &journal)?;
    told.push_str(str::from_utf8(text.as_slice())?)?;
    Ok(())
}

fn step(alloc: Global, told: &mut String) -> Result<()> {
    let step = match read_step(alloc, STEP.as_bytes()) {
        Ok(step) => step,
        Err(fault) => bail!("{fault}"),
    };
    let line = write_step(alloc, &step)?;
    told.push_str(str::from_utf8(line.as_slice())?)?;
    Ok(())
}

pub fn call(alloc: Global, told: &mut String) -> Result<()> {
    journal(alloc, JOURNAL, told)?;
    journal(alloc, LIMITED_JOURNAL, told)?;
    step(alloc, told)?;
    let steps = generate(alloc, 7, 1)?;
    let has_steps = !steps.is_empty();
    writeln!(told, "\nan exercise has steps: {has_steps}")?;
    Ok(())
}
