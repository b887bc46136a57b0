//! Voice targets.

ghost use Rattle.std.specs.Prelude.{◌≡◌, ◌==◌, ◌||◌, IfOk, nat_lt};
ghost use Rattle.std.specs.Option.{option_map};
ghost use Rattle.mum_users.specs.declared.target.TheConstants.{LAST_TARGET};
ghost use Rattle.mum_rules_tree.specs.Asked.{channel};
ghost use Rattle.mum_rules_tree.specs.Decision.{unless_refused};
ghost use Rattle.mum_rules_user.specs.Asked.{item_asked, number_of_target, target_asked};
ghost use Rattle.mum_rules_user.specs.Limits.{limits_of_target};

use crate::text::sessions;
use mum_base::{ChannelId, DenyType, Items, OutOfMemory, SessionId, Text};
use mum_msg_rule::{TargetBlock, VoiceTarget};
use mum_state::{Edit, Verdict};
use mum_users::target::LAST_TARGET;
use mum_users::{Target, TargetItem};
use std::alloc::Global;

fn channel_if_given(number: Option<u32>) -> Option<ChannelId>
    ensures { result ≡ option_map channel number }
{
    match number {
        Some(number) => Some(ChannelId(number)),
        None => None,
    }
}

fn item_asked(alloc: Global, block: &TargetBlock) -> Result<TargetItem, OutOfMemory>
    ensures { IfOk result (λ item. item ≡ item_asked block.now) }
{
    Ok(TargetItem {
        sessions: sessions(alloc, block.session.as_slice())?,
        channel: channel_if_given(block.channel_id),
        group: Text::share_or_empty(alloc, &block.group)?,
        links: block.links.unwrap_or(false),
        children: block.children.unwrap_or(false),
    })
}

fn target_asked(alloc: Global, message: &VoiceTarget) -> Result<Target, OutOfMemory>
    ensures { IfOk result (λ target. target ≡ target_asked message.now) }
{
    let blocks = message.targets.as_slice();
    let mut items = Vec::with_capacity(alloc, blocks.len())?;
    for block in blocks {
        items.push(item_asked(alloc, block)?)?;
    }
    Ok(Target {
        items: Items::from_vec(items),
    })
}

// Whether a number is none of a voice target.
fn is_no_target(number: u32) -> bool
    ensures { result ≡ ((number == 0) || nat_lt LAST_TARGET number) }
{
    number == 0 || number > u32::from(LAST_TARGET)
}

// What is decided of a voice target. It needs nothing.
pub(crate) fn decide_target(
    alloc: Global,
    actor: SessionId,
    message: &VoiceTarget,
) -> Result<Verdict, OutOfMemory>
    ensures { IfOk result (λ verdict. verdict ≡ unless_refused (limits_of_target message.now)
        (Verdict.Accepted (Edit.SetTarget actor (number_of_target message.now)
        (target_asked message.now)))) }
{
    let number = message.id.unwrap_or(0);
    if is_no_target(number) {
        return Ok(Verdict::refused(DenyType::Text));
    }
    let target = target_asked(alloc, message)?;
    if target.is_oversize() {
        return Ok(Verdict::refused(DenyType::Text));
    }
    Ok(Verdict::Accepted(Edit::SetTarget {
        session: actor,
        id: number as u8,
        target,
    }))
}
