//! Every message, decoded and encoded again.

use anyhow::Result;
use mum_msg_rule::{
    Acl, AclGroup, AclLine, PermissionDenied, PermissionQuery, TargetBlock, TextMessage,
    VoiceTarget,
};
use mum_msg_state::{
    Authenticate, ChannelRemove, ChannelState, CodecVersion, Message, Ping, Reject, ServerSync,
    UserRemove, UserState, Version,
};
use std::alloc::Global;
use std::mem::drop;

// The message of a payload, which it is written as again.
fn again<M: Message + Drop>(
    alloc: Global,
    told: &mut String,
    name: &str,
    payload: &str,
) -> Result<()> {
    let bytes = hex::decode(alloc, payload)?;
    let message = M::decode(alloc, &bytes)?;
    let encoded = message.encode(alloc);
    drop(message);
    let digits = hex::encode(alloc, encoded?.as_slice())?;
    writeln!(told, "{name} {digits}")?;
    Ok(())
}

fn on_state(alloc: Global, told: &mut String) -> Result<()> {
    again::<Version>(alloc, told, "Version", "08808804120172")?;
    again::<Authenticate>(alloc, told, "Authenticate", "0a0161120170")?;
    again::<Ping>(alloc, told, "Ping", "0805")?;
    again::<Reject>(alloc, told, "Reject", "080312026e6f")?;
    again::<ServerSync>(alloc, told, "ServerSync", "0801208e16")?;
    again::<CodecVersion>(alloc, told, "CodecVersion", "080010001801")?;
    again::<ChannelRemove>(alloc, told, "ChannelRemove", "0807")?;
    again::<ChannelState>(alloc, told, "ChannelState", "08011a0161")?;
    again::<UserRemove>(alloc, told, "UserRemove", "08051a026869")?;
    again::<UserState>(alloc, told, "UserState", "08011a0161")
}

fn on_rules(alloc: Global, told: &mut String) -> Result<()> {
    again::<TextMessage>(alloc, told, "TextMessage", "10022a026869")?;
    again::<PermissionDenied>(alloc, told, "PermissionDenied", "080410071801")?;
    again::<PermissionQuery>(alloc, told, "PermissionQuery", "0807108e16")?;
    again::<AclGroup>(alloc, told, "ACL.ChanGroup", "0a01612805")?;
    again::<AclLine>(alloc, told, "ACL.ChanACL", "20053004")?;
    again::<Acl>(alloc, told, "ACL", "08071a030a0161220420053004")?;
    again::<TargetBlock>(alloc, told, "VoiceTarget.Target", "08021007")?;
    again::<VoiceTarget>(alloc, told, "VoiceTarget", "0801120408021007")
}

pub fn call(alloc: Global, told: &mut String) -> Result<()> {
    on_state(alloc, told)?;
    on_rules(alloc, told)
}
