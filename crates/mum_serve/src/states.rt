//! The state at which a server begins.

ghost use Rattle.std.specs.Prelude.{◌≡◌, ◌<◌, ◌^◌, [], ◌∷◌, ◌++◌, IfOk, IfSome, IsTrue, OnOk, true};
ghost use Rattle.mum_config.specs.Limits.{FitAfterLimits, is_beside_channels, settings_and_accounts};
ghost use Rattle.mum_kept.specs.Good.{IsGood, IsTree};
ghost use Rattle.mum_kept.specs.Rebuild.{rebuild};
ghost use Rattle.mum_kept_laws.specs.RoundTrip.{HaveNumbers};
ghost use Rattle.mum_opening.specs.Opening.{served_edits};
ghost use Rattle.mum_serve.specs.Loading.{state_over};
ghost use Rattle.mum_state.specs.After.{after, all_fit, led_to};
ghost use Rattle.mum_state.specs.Fits.{fits};
ghost use Rattle.mum_state.specs.State.{empty_state};

use mum_base::{ChannelId, OutOfMemory};
use mum_history::state_from;
use mum_keeper::{KeptChannel, KeptRows, rebuild};
use mum_opening::opening_state;
use mum_record::Limits;
use mum_state::{Edit, State};
use std::alloc::Global;
use std::mem::drop;

fn is_beside_channels(edit: &Edit) -> bool
    ensures { result ≡ is_beside_channels edit.now }
{
    matches!(edit, Edit::SetServer { .. } | Edit::AddAccount { .. })
}

// Makes an edit, if it is of the settings or an account.
fn set_beside(state: &mut State, edit: &Edit) -> Result<(), OutOfMemory>
    requires { is_beside_channels edit.now ≡ true → IsTrue (fits state.old edit.now) }
    ensures { OnOk result (state.new ≡ led_to state.old (settings_and_accounts (edit.now ∷ []))) }
{
    if is_beside_channels(edit) {
        state.apply(edit)
    } else {
        Ok(())
    }
}

// The state after the settings and the accounts of these edits, without the channels and their links.
fn with_settings(mut state: State, edits: &[Edit]) -> Result<State, OutOfMemory>
    requires { IsTrue (all_fit state (settings_and_accounts edits.now)) }
    ensures { IfOk result (λ led. led ≡ led_to state (settings_and_accounts edits.now)) }
{
    for edit in edits {
        if let Err(error) = set_beside(&mut state, edit) {
            drop(state);
            return Err(error);
        }
    }
    Ok(state)
}

// The number of a channel has 32 bits. This does nothing, and neither does the next: each contract is a fact of the types.
fn has_number(id: ChannelId)
    ensures { id.0 < 2 ^ 32 }
{}

fn have_numbers(channels: &[KeptChannel])
    ensures { HaveNumbers channels.now }
{
    for channel in channels {
        has_number(channel.id);
    }
}

// The state at which a server begins that is given the settings and the accounts of these edits, and these channels.
fn rebuilt_state(alloc: Global, edits: &[Edit], rows: &KeptRows) -> Result<State, OutOfMemory>
    requires alone { FitAfterLimits (settings_and_accounts edits.now) }
    requires rows { IsTree rows.now }
    ensures { IfOk result
        (λ state. state ≡ after (served_edits (settings_and_accounts edits.now ++ rebuild rows.now))) }
{
    have_numbers(rows.channels.as_slice());
    let channels = rebuild(alloc, rows)?;
    let limited = opening_state(alloc, &Some(Limits::greatest()), &[])?;
    let state = with_settings(limited, edits)?;
    state_from(state, &channels)
}

// The state at which a server begins that is given these edits of a configuration, and these rows, where channels are
// kept.
pub(crate) fn first_state(
    alloc: Global,
    edits: &[Edit],
    rows: &Option<KeptRows>,
) -> Result<State, OutOfMemory>
    requires fit { IsTrue (all_fit empty_state edits.now) }
    requires limited { FitAfterLimits edits.now }
    requires alone { FitAfterLimits (settings_and_accounts edits.now) }
    requires rows { IfSome rows.now IsGood }
    ensures { IfOk result (λ state. state ≡ state_over edits.now rows.now) }
{
    let Some(rows) = rows else {
        return opening_state(alloc, &Some(Limits::greatest()), edits);
    };
    if rows.channels.as_slice().is_empty() {
        return opening_state(alloc, &Some(Limits::greatest()), edits);
    }
    rebuilt_state(alloc, edits, rows)
}
