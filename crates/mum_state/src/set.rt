//! What each edit sets, before what follows from it.

ghost use Rattle.std.specs.Prelude.{◌≡◌, ◌<◌, ◌≤◌, None, IsOk, IsTrue, OnErr, OnOk, false, true};
ghost use Rattle.std.specs.List.{list_all, list_any};
ghost use Rattle.mum_base.specs.declared.number.TheConstants.{PLACES, SLOTS};
ghost use Rattle.mum_tree.specs.Change.{change_of, fault_of_edit, with_change};
ghost use Rattle.mum_tree.specs.Refusals.{fault_of_add, fault_of_remove};
ghost use Rattle.mum_tree.specs.Rows.{is_there};
ghost use Rattle.mum_tree.specs.State.{with_info, with_new, without_subtree};
ghost use Rattle.mum_users.specs.Edit.{edit_fault, edited, user_edit_of};
ghost use Rattle.mum_users.specs.Sessions.{join_fault, joined, left, with_tokens};
ghost use Rattle.mum_users.specs.State.{has_number};
ghost use Rattle.mum_users.specs.Targets.{target_fault, targeted};
ghost use Rattle.mum_state.specs.Fits.{fits};
ghost use Rattle.mum_state.specs.Kinds.{changes_channels, needs_no_memory};
ghost use Rattle.mum_state.specs.Named.{given};
ghost use Rattle.mum_state.specs.Set.{set_by, with_limits, with_made, with_maker_in, with_members_moved_up, with_policy, with_tree};
ghost use Rattle.mum_state.specs.State.{is_named, is_numbered, with_account};

use crate::account::Account;
use crate::change::{channel_change, user_change};
use crate::edit::Edit;
use crate::kind::changes_channels;
use crate::moved::{Gone, MovedUp, parent_of};
use crate::parts::Parts;
use crate::server::Server;
use mum_base::{AccountId, ChannelId, Items, OutOfMemory, SessionId, Text};
use mum_policy::ChannelPolicy;
use mum_tree::{ChannelChange, ChannelInfo};
use mum_users::{Target, UserChange};
use std::alloc::AllocError;

impl Parts {
    fn set_server(
        &mut self,
        welcome: &Text,
        bandwidth: u32,
        password: Option<[u8; 32]>,
    ) -> Result<(), OutOfMemory>
        ensures ok { OnOk result (self.new ≡ record self.old {
          server = record { welcome = welcome.now; bandwidth = bandwidth; password = password };
        }) }
        ensures err { OnErr result (self.new ≡ self.old) }
    {
        let welcome = welcome.share()?;
        self.server = Server {
            welcome,
            bandwidth,
            password,
        };
        Ok(())
    }

    fn set_limits(&mut self, sessions: u16, channels: u32) -> Result<(), OutOfMemory>
        requires sessions { self.old.roster.limit ≤ sessions }
        requires few_sessions { sessions ≤ SLOTS }
        requires channels { self.old.tree.limit ≤ channels }
        requires few_channels { channels ≤ PLACES }
        ensures ok { OnOk result (self.new ≡ with_limits self.old sessions channels) }
        ensures err { OnErr result (self.new ≡ self.old) }
    {
        self.channels.set_limit(channels)?;
        self.roster.set_limit(sessions);
        Ok(())
    }

    fn add_account(
        &mut self,
        account: AccountId,
        name: &Text,
        digest: [u8; 32],
    ) -> Result<(), OutOfMemory>
        requires name { list_any (is_named name.now) self.old.accounts ≡ false }
        requires number { list_any (is_numbered account) self.old.accounts ≡ false }
        ensures ok { OnOk result (self.new ≡ record self.old {
          accounts = with_account
              (record { account = account; name = name.now; digest = digest }) self.old.accounts;
        }) }
        ensures err { OnErr result (self.new ≡ self.old) }
    {
        let name = name.share()?;
        self.accounts.add(Account {
            account,
            name,
            digest,
        })
    }

    fn join(
        &mut self,
        name: &Text,
        account: Option<AccountId>,
        tokens: &Items<Text>,
    ) -> Result<(), OutOfMemory>
        requires { join_fault self.old.roster name.now ≡ None }
        ensures ok { OnOk result (self.new
            ≡ record self.old { roster = joined self.old.roster name.now account tokens.now }) }
        ensures err { OnErr result (self.new ≡ self.old) }
    {
        match self.roster.join(name.as_str(), account, tokens.as_slice()) {
            Ok(_) => Ok(()),
            Err(_) => Err(AllocError),
        }
    }

    fn leave(&mut self, session: SessionId)
        requires { IsTrue (list_any (has_number session) self.old.roster.sessions) }
        ensures { self.new ≡ record self.old { roster = left self.old.roster session } }
    {
        match self.roster.leave(session) {
            Ok(()) => {}
            Err(_) => unreachable!(),
        }
    }

    // The maker of a temporary channel enters it.
    fn enter_made(&mut self, id: ChannelId, temporary: bool, maker: Option<SessionId>)
        requires { IsTrue (list_all (λ maker. list_any (has_number maker)
            self.old.roster.sessions) (given maker)) }
        ensures { self.new ≡ with_maker_in self.old id temporary maker }
    {
        let Some(maker) = maker else {
            return;
        };
        if !temporary {
            return;
        }
        match self.roster.place(maker, id) {
            Ok(()) => {}
            Err(_) => unreachable!(),
        }
    }

    fn make_channel(
        &mut self,
        id: ChannelId,
        parent: ChannelId,
        name: &Text,
        temporary: bool,
        info: &ChannelInfo,
        maker: Option<SessionId>,
    ) -> Result<(), OutOfMemory>
        requires above { self.old.tree.greatest < id.0 }
        requires allowed { fault_of_add self.old.tree id parent name.now ≡ None }
        requires maker { IsTrue (list_all (λ maker. list_any (has_number maker)
            self.old.roster.sessions) (given maker)) }
        ensures ok { OnOk result (self.new ≡ with_maker_in (with_made self.old (with_info (with_new
            self.old.tree id parent name.now temporary) id info.now) id) id temporary maker) }
        ensures err { OnErr result (self.new ≡ self.old) }
    {
        self.channels
            .make(id, parent, name.as_str(), temporary, info)?;
        self.enter_made(id, temporary, maker);
        Ok(())
    }

    fn edit_channel(&mut self, id: ChannelId, change: &ChannelChange<'_>) -> Result<(), OutOfMemory>
        requires { fault_of_edit self.old.tree id (change_of change.now) ≡ None }
        ensures ok { OnOk result (self.new
            ≡ record self.old { tree = with_change self.old.tree id (change_of change.now) }) }
        ensures err { OnErr result (self.new ≡ self.old) }
    {
        self.channels.edit(id, change)
    }

    // Takes away a channel, all below it, and what belongs to them. It takes no memory.
    pub(crate) fn remove_channels(&mut self, id: ChannelId)
        requires { fault_of_remove self.old.tree id ≡ None }
        ensures { self.new ≡ with_tree self.old (without_subtree self.old.tree id) }
    {
        self.channels.remove(id);
        let gone = Gone {
            tree: self.channels.tree(),
        };
        self.roster.close(&gone);
    }

    // Who is in the channel or below it is in its parent.
    fn move_up(&mut self, id: ChannelId)
        ensures { self.new ≡ with_members_moved_up self.old id }
    {
        let tree = self.channels.tree();
        let moved = MovedUp {
            tree,
            id,
            parent: parent_of(tree, id),
        };
        self.roster.place_all(&moved);
    }

    fn edit_user(&mut self, session: SessionId, change: &UserChange<'_>) -> Result<(), OutOfMemory>
        requires { edit_fault self.old.roster session (user_edit_of change.now) ≡ None }
        ensures ok { OnOk result (self.new
            ≡ record self.old { roster = edited self.old.roster session (user_edit_of change.now) }) }
        ensures err { OnErr result (self.new ≡ self.old) }
    {
        match self.roster.edit(session, change) {
            Ok(()) => Ok(()),
            Err(_) => Err(AllocError),
        }
    }

    fn set_tokens(&mut self, session: SessionId, tokens: &Items<Text>) -> Result<(), OutOfMemory>
        requires { IsTrue (list_any (has_number session) self.old.roster.sessions) }
        ensures ok { OnOk result (self.new
            ≡ record self.old { roster = with_tokens self.old.roster session tokens.now }) }
        ensures err { OnErr result (self.new ≡ self.old) }
    {
        match self.roster.set_tokens(session, tokens.as_slice()) {
            Ok(()) => Ok(()),
            Err(_) => Err(AllocError),
        }
    }

    fn set_target(&mut self, session: SessionId, id: u8, target: &Target) -> Result<(), OutOfMemory>
        requires { target_fault self.old.roster session id target.now ≡ None }
        ensures ok { OnOk result (self.new
            ≡ record self.old { roster = targeted self.old.roster session id target.now }) }
        ensures err { OnErr result (self.new ≡ self.old) }
    {
        match self.roster.set_target(session, id, target) {
            Ok(()) => Ok(()),
            Err(_) => Err(AllocError),
        }
    }

    fn set_policy(&mut self, channel: ChannelId, policy: &ChannelPolicy) -> Result<(), OutOfMemory>
        requires { IsTrue (is_there self.old.tree.channels channel) }
        ensures ok { OnOk result (self.new
            ≡ record self.old { policies = with_policy channel policy.now self.old.policies }) }
        ensures err { OnErr result (self.new ≡ self.old) }
    {
        let policy = policy.copy(self.alloc)?;
        self.channels.set_policy(channel, policy);
        Ok(())
    }

    // What an edit of the server's settings, an account or a session sets.
    fn set_others(&mut self, edit: &Edit) -> Result<(), OutOfMemory>
        requires fits { IsTrue (fits self.old edit.now) }
        requires kind { changes_channels edit.now ≡ false }
        ensures ok { OnOk result (self.new ≡ set_by self.old edit.now) }
        ensures err { OnErr result (self.new ≡ self.old) }
        ensures in_place { IsTrue (needs_no_memory edit.now) → IsOk result }
    {
        match *edit {
            Edit::SetServer {
                ref welcome,
                bandwidth,
                password,
            } => self.set_server(welcome, bandwidth, password),
            Edit::SetLimits { sessions, channels } => self.set_limits(sessions, channels),
            Edit::AddAccount {
                account,
                ref name,
                digest,
            } => self.add_account(account, name, digest),
            Edit::Join {
                ref name,
                account,
                ref tokens,
                ..
            } => self.join(name, account, tokens),
            Edit::Leave { session } | Edit::Kick { session, .. } => {
                self.leave(session);
                Ok(())
            }
            Edit::SetUser { session, .. } => match user_change(edit) {
                Some(change) => self.edit_user(session, &change),
                None => unreachable!(),
            },
            Edit::SetTokens {
                session,
                ref tokens,
            } => self.set_tokens(session, tokens),
            Edit::SetTarget {
                session,
                id,
                ref target,
            } => self.set_target(session, id, target),
            Edit::Text { .. } => Ok(()),
            _ => unreachable!(),
        }
    }

    // What an edit of channels or of their policies sets.
    fn set_channels(&mut self, edit: &Edit) -> Result<(), OutOfMemory>
        requires fits { IsTrue (fits self.old edit.now) }
        requires kind { changes_channels edit.now ≡ true }
        ensures ok { OnOk result (self.new ≡ set_by self.old edit.now) }
        ensures err { OnErr result (self.new ≡ self.old) }
        ensures in_place { IsTrue (needs_no_memory edit.now) → IsOk result }
    {
        match *edit {
            Edit::MakeChannel {
                id,
                parent,
                ref name,
                temporary,
                ref info,
                maker,
            } => self.make_channel(id, parent, name, temporary, info, maker),
            Edit::EditChannel { id, .. } => match channel_change(edit) {
                Some(change) => self.edit_channel(id, &change),
                None => unreachable!(),
            },
            Edit::RemoveChannel { id, .. } => {
                self.move_up(id);
                self.remove_channels(id);
                Ok(())
            }
            Edit::SetAcl {
                channel,
                ref policy,
                ..
            } => self.set_policy(channel, policy),
            _ => unreachable!(),
        }
    }

    // Sets what an edit sets. After it ran out of memory all is as it was.
    pub(crate) fn set(&mut self, edit: &Edit) -> Result<(), OutOfMemory>
        requires { IsTrue (fits self.old edit.now) }
        ensures ok { OnOk result (self.new ≡ set_by self.old edit.now) }
        ensures err { OnErr result (self.new ≡ self.old) }
        ensures in_place { IsTrue (needs_no_memory edit.now) → IsOk result }
    {
        if changes_channels(edit) {
            self.set_channels(edit)
        } else {
            self.set_others(edit)
        }
    }
}
