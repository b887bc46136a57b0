//! What a session may do in a channel at a revision.

use crate::end::End;
use crate::heard::{revision_of, write};
use crate::permissions::push_answer;
use crate::story::Story;
use mum_base::{ChannelId, SessionId};
use mum_io::Sink;
use std::alloc::Global;

// Writes what a session may do in a channel at a revision, and what takes the rest away.
pub(crate) fn write_may<O: Sink>(
    alloc: Global,
    story: &mut Story,
    session: SessionId,
    channel: ChannelId,
    revision: Option<u64>,
    output: &mut O,
) -> Result<(), End> {
    let revision = revision_of(&story.states, revision)?;
    let mut text = String::new(alloc);
    story.states.go_to(alloc, revision)?;
    let state = story.states.state();
    push_answer(alloc, &mut text, state, revision, session, channel)?;
    write(output, text.as_str())
}
