//! Logins, and the access tokens that come with them.

ghost use Rattle.std.specs.Prelude.{◌≡◌, IfOk, IsTrue, filter, not, take};
ghost use Rattle.std.specs.Option.{option_copied, option_map};
ghost use Rattle.mum_base.specs.declared.number.AccountId.{AccountId};
ghost use Rattle.mum_state.specs.State.{account_named};
ghost use Rattle.mum_users.specs.State.{is_long_token};
ghost use Rattle.mum_rules_tree.specs.Decision.{first_standing};
ghost use Rattle.mum_users.specs.Sessions.{next_number, next_slot};
ghost use Rattle.mum_rules_user.specs.Codes.{reject_type_of};
ghost use Rattle.mum_rules_user.specs.Login.{edit_to_join, is_digest_of, is_no_guest, is_not_the_owner, is_old, limits_of_login, limits_of_seat, tokens_kept};
ghost use Rattle.mum_rules_user.specs.Verdict.{login_verdict};

use crate::reject::OLDEST_VERSION;
use mum_base::{AccountId, Items, OutOfMemory, RejectType, SessionId, Slot, Text, check_name};
use mum_msg_state::Authenticate;
use mum_state::{Account, Edit, State, Verdict};
use mum_users::user::{TOKEN_BYTES, TOKENS};
use mum_users::{Roster, UserFault};
use sha2::{Digest, Sha256};
use std::alloc::Global;

// The tokens of the first 64 that are not too long.
fn tokens_kept(alloc: Global, given: &[Text]) -> Result<Items<Text>, OutOfMemory>
    ensures { IfOk result (λ kept. kept ≡ tokens_kept given.now) }
{
    let counted = &given[..TOKENS.min(given.len())];
    let mut kept = Vec::with_capacity(alloc, counted.len())?;
    for token in counted {
        if token.as_slice().len() <= TOKEN_BYTES {
            kept.push(token.share()?)?;
        }
    }
    Ok(Items::from_vec(kept))
}

// Whether a client sent a version that is too old.
fn is_old(version: Option<u32>) -> bool
    ensures { result ≡ is_old version }
{
    match version {
        Some(number) => number < OLDEST_VERSION,
        None => false,
    }
}

// Whether the digest is that of the password.
fn is_digest_of(password: &str, digest: &[u8; 32]) -> bool
    ensures { result ≡ is_digest_of password.now digest.now }
{
    Sha256::digest(password) == *digest
}

// Whether the name is an account's, and this is not its password.
fn is_not_the_owner(account: Option<&Account>, password: &str) -> bool
    ensures { result ≡ is_not_the_owner (option_copied account.entry) password.now }
{
    match account {
        Some(account) => !is_digest_of(password, &account.digest),
        None => false,
    }
}

// Whether the name is no account's, the server has a password, and this is not it.
fn is_no_guest(account: Option<&Account>, digest: &Option<[u8; 32]>, password: &str) -> bool
    ensures { result ≡ is_no_guest (option_copied account.entry) digest.now password.now }
{
    match (account, digest) {
        (None, Some(digest)) => !is_digest_of(password, digest),
        _ => false,
    }
}

// For what a login is refused that the roster would refuse.
fn reject_type_of(fault: UserFault) -> RejectType
    ensures { result ≡ reject_type_of fault }
{
    match fault {
        UserFault::NameInUse => RejectType::UsernameInUse,
        _ => RejectType::ServerFull,
    }
}

// For what the roster refuses it first.
fn limit_of_seat(roster: &Roster, name: &str) -> Option<RejectType>
    ensures { result ≡ first_standing (limits_of_seat roster.now name.now) }
{
    match roster.cause_against_joining(name) {
        Some(fault) => Some(reject_type_of(fault)),
        None => None,
    }
}

// For what a login is refused first.
fn limit_of_login(state: &State, version: Option<u32>, message: &Authenticate) -> Option<RejectType>
    ensures { result ≡ first_standing (limits_of_login state.now version message.now) }
{
    if is_old(version) {
        return Some(RejectType::WrongVersion);
    }
    let name = Text::or_empty(&message.username);
    if check_name(name).is_err() {
        return Some(RejectType::InvalidUsername);
    }
    let password = Text::or_empty(&message.password);
    let account = state.account_named(name);
    if is_not_the_owner(account, password) {
        return Some(RejectType::WrongUserPW);
    }
    if is_no_guest(account, &state.server().password, password) {
        return Some(RejectType::WrongServerPW);
    }
    limit_of_seat(state.roster(), name)
}

// The number of the account of a name, if it has one.
fn account_number(state: &State, name: &str) -> Option<AccountId>
    ensures { result ≡ option_map (λ account. account.account) (account_named state.now name.now) }
{
    match state.account_named(name) {
        Some(account) => Some(account.account),
        None => None,
    }
}

fn edit_to_join(
    alloc: Global,
    state: &State,
    seat: (SessionId, Slot),
    message: &Authenticate,
) -> Result<Edit, OutOfMemory>
    requires session { seat.0 ≡ next_number state.now.roster }
    requires slot { seat.1 ≡ next_slot state.now.roster }
    ensures { IfOk result (λ edit. edit ≡ edit_to_join state.now message.now) }
{
    let (session, slot) = seat;
    Ok(Edit::Join {
        session,
        slot,
        name: Text::share_or_empty(alloc, &message.username)?,
        account: account_number(state, Text::or_empty(&message.username)),
        tokens: tokens_kept(alloc, message.tokens.as_slice())?,
    })
}

// What is decided of a login by a connection without a session.
pub(crate) fn decide_login(
    alloc: Global,
    state: &State,
    version: Option<u32>,
    message: &Authenticate,
) -> Result<Verdict, OutOfMemory>
    ensures { IfOk result (λ verdict. verdict ≡ login_verdict state.now version message.now) }
{
    if let Some(kind) = limit_of_login(state, version, message) {
        return Ok(Verdict::rejected(kind));
    }
    match state.roster().next_join() {
        Some(seat) => Ok(Verdict::Accepted(edit_to_join(alloc, state, seat, message)?)),
        None => Ok(Verdict::rejected(RejectType::ServerFull)),
    }
}

// What is decided of a login by a session: its new tokens. It needs nothing, and nothing limits it.
pub(crate) fn decide_renewal(
    alloc: Global,
    actor: SessionId,
    message: &Authenticate,
) -> Result<Verdict, OutOfMemory>
    ensures { IfOk result (λ verdict. verdict
        ≡ Verdict.Accepted (Edit.SetTokens actor (tokens_kept message.now.tokens))) }
{
    Ok(Verdict::Accepted(Edit::SetTokens {
        session: actor,
        tokens: tokens_kept(alloc, message.tokens.as_slice())?,
    }))
}
