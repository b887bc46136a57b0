//! Public calls of the libraries that neither `murmur replay` nor `murmur exercise` makes, each made once
//! with ample memory, since a body that always answers out of memory is proved too.
#![tactic(auto)]

mod journal;
mod keeper;
mod kept;
mod message;
mod notice;
mod roster;
mod stream;
mod tree;
mod view;

use anyhow::Result;

fn main(rt: HostRuntime) -> Result<()> {
    let alloc = rt.alloc();
    let mut told = String::new(alloc);
    stream::call(alloc, &mut told)?;
    message::call(alloc, &mut told)?;
    journal::call(alloc, &mut told)?;
    tree::call(alloc, &mut told)?;
    roster::call(alloc, &mut told)?;
    notice::call(alloc, &mut told)?;
    view::call(alloc, &mut told)?;
    kept::call(alloc, &mut told)?;
    keeper::call(alloc, &mut told)?;
    rt.print(told.as_str())?;
    Ok(())
}
