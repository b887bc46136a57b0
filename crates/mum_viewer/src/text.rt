//! The JSON text of a picture.

ghost use Rattle.std.specs.Prelude.{◌≡◌, IfOk, map};
ghost use Rattle.serde_json.specs.View.{view};
ghost use Rattle.serde_json.specs.Written.{compact_text};
ghost use Rattle.mum_viewer.specs.Text.{account_or_null, channel_numbers, channel_object, channel_or_null, list, picture_object, picture_text, user_object, view_text};

use crate::picture::{Picture, ShownChannel, ShownUser};
use mum_base::{AccountId, ChannelId, Octets, OutOfMemory};
use mum_state::State;
use serde_json::{Value, json};
use std::alloc::Global;

// A list of channels by their numbers.
fn channel_numbers(alloc: Global, ids: &[ChannelId]) -> Result<Value, OutOfMemory>
    ensures { IfOk result (λ value. view value ≡ channel_numbers ids.now) }
{
    let mut numbers = Vec::with_capacity(alloc, ids.len())?;
    for id in ids {
        numbers.push(Value::from(id.0))?;
    }
    Ok(Value::from(numbers))
}

fn channel_or_null(given: Option<ChannelId>) -> Value
    ensures { view result ≡ channel_or_null given }
{
    match given {
        Some(id) => Value::from(id.0),
        None => Value::Null,
    }
}

fn account_or_null(given: Option<AccountId>) -> Value
    ensures { view result ≡ account_or_null given }
{
    match given {
        Some(id) => Value::from(id.0),
        None => Value::Null,
    }
}

fn channel_object(alloc: Global, channel: &ShownChannel) -> Result<Value, OutOfMemory>
    ensures { IfOk result (λ value. view value ≡ channel_object channel.now) }
{
    let links = channel_numbers(alloc, channel.links.as_slice())?;
    json!(in alloc; {
        "id": channel.id.0,
        "links": links,
        "name": channel.name.as_str(),
        "parent": channel_or_null(channel.parent),
        "temporary": channel.temporary,
    })
}

fn user_object(alloc: Global, user: &ShownUser) -> Result<Value, OutOfMemory>
    ensures { IfOk result (λ value. view value ≡ user_object user.now) }
{
    let listens = channel_numbers(alloc, user.listens.as_slice())?;
    json!(in alloc; {
        "account": account_or_null(user.account),
        "channel": user.channel.0,
        "deaf": user.deaf,
        "listens": listens,
        "mute": user.mute,
        "name": user.name.as_str(),
        "session": user.session.0,
    })
}

fn channel_list(alloc: Global, channels: &[ShownChannel]) -> Result<Value, OutOfMemory>
    ensures { IfOk result (λ value. view value ≡ list (map channel_object channels.now)) }
{
    let mut objects = Vec::with_capacity(alloc, channels.len())?;
    for channel in channels {
        objects.push(channel_object(alloc, channel)?)?;
    }
    Ok(Value::from(objects))
}

fn user_list(alloc: Global, users: &[ShownUser]) -> Result<Value, OutOfMemory>
    ensures { IfOk result (λ value. view value ≡ list (map user_object users.now)) }
{
    let mut objects = Vec::with_capacity(alloc, users.len())?;
    for user in users {
        objects.push(user_object(alloc, user)?)?;
    }
    Ok(Value::from(objects))
}

fn picture_object(alloc: Global, picture: &Picture) -> Result<Value, OutOfMemory>
    ensures { IfOk result (λ value. view value ≡ picture_object picture.now) }
{
    let channels = channel_list(alloc, picture.channels.as_slice())?;
    let users = user_list(alloc, picture.users.as_slice())?;
    json!(in alloc; {
        "channels": channels,
        "revision": picture.revision,
        "users": users,
    })
}

fn object_text(alloc: Global, picture: &Picture) -> Result<Vec<u8>, OutOfMemory>
    ensures { IfOk result (λ text. text.items ≡ compact_text (picture_object picture.now)) }
{
    let object = picture_object(alloc, picture)?;
    object.to_vec(alloc)
}

impl Picture {
    // The picture as one JSON object without white space, and a line feed.
    pub(crate) fn text(&self, alloc: Global) -> Result<Octets, OutOfMemory>
        ensures { IfOk result (λ text. text ≡ picture_text self.now) }
    {
        let mut text = object_text(alloc, self)?;
        text.push(b'\n')?;
        Ok(Octets::from_vec(text))
    }
}

/// The channels and the users of a state as one JSON object without white space, and a line feed. The
/// keys of each object are in the order of their bytes.
pub fn view_text(alloc: Global, state: &State) -> Result<Octets, OutOfMemory>
    ensures { IfOk result (λ text. text ≡ view_text state.now) }
{
    let picture = Picture::of(alloc, state)?;
    picture.text(alloc)
}
