//! Notices that wait to go out.

ghost use Rattle.std.specs.Prelude.{◌≡◌, ◌-◌, [], ◌∷◌, ◌++◌, length, map, IfOk, MatchOption, OnErr, OnOk, drop, slice_get, take};
ghost use Rattle.std.specs.Option.{option_copied};

use crate::notice::Notice;
use mum_base::{OutOfMemory, SessionId};
use std::alloc::{AllocError, Global};
use std::collections::VecDeque;
use std::marker::Model;

/// The same notice once more. Its bytes are shared, not copied; only the first time that they are shared is memory taken
/// for that.
pub fn shared(notice: &Notice) -> Result<Notice, OutOfMemory>
    ensures { IfOk result (λ shared. shared ≡ notice.now) }
{
    Ok(Notice {
        to: notice.to,
        slot: notice.slot,
        bytes: notice.bytes.share()?,
        last: notice.last,
    })
}

/// Notices that wait, the oldest first: to be posted, or for the connection of one slot. Their room grows as
/// it is wanted.
#[derive(Drop)]
pub struct NoticeQueue {
    notices: VecDeque<Notice>,
}

impl Model for NoticeQueue {
    ghost use Rattle.std.specs.Prelude.{List};
    ghost use Rattle.mum_notify.specs.declared.notice.Notice.{Notice};

    ghost Value = { List Notice };

    ghost view = { λ q. q.notices.items };
}

impl NoticeQueue {
    /// None. It takes no memory.
    pub fn new(alloc: Global) -> NoticeQueue
        ensures { result ≡ [] }
    {
        NoticeQueue {
            notices: VecDeque::new(alloc),
        }
    }

    /// How many there are.
    pub fn len(&self) -> usize
        ensures { result ≡ length self.now }
    {
        self.notices.len()
    }

    /// Puts a notice at the back. Where memory runs out, it is not there.
    pub fn put(&mut self, notice: Notice) -> Result<(), OutOfMemory>
        ensures ok { OnOk result (self.new ≡ self.old ++ notice ∷ []) }
        ensures err { OnErr result (self.new ≡ self.old) }
    {
        self.notices.push_back(notice).map_err(AllocError::from)
    }

    // The same of a notice that is elsewhere too.
    fn put_shared(&mut self, notice: &Notice) -> Result<(), OutOfMemory>
        ensures ok { OnOk result (self.new ≡ self.old ++ notice.now ∷ []) }
        ensures err { OnErr result (self.new ≡ self.old) }
    {
        self.put(shared(notice)?)
    }

    /// Puts notices at the back. Where memory runs out, none of them is there.
    pub fn put_all(&mut self, told: &[Notice]) -> Result<(), OutOfMemory>
        ensures ok { OnOk result (self.new ≡ self.old ++ told.now) }
        ensures err { OnErr result (self.new ≡ self.old) }
    {
        for i in 0..told.len() {
            if let Err(e) = self.put_shared(&told[i]) {
                self.take_back(i);
                return Err(e);
            }
        }
        Ok(())
    }

    // The notice at the back goes.
    fn drop_back(&mut self)
        ensures { self.new ≡ take (length self.old - 1) self.old }
    {
        let _ = self.notices.pop_back();
    }

    /// As many as this at the back go.
    pub fn take_back(&mut self, count: usize)
        ensures { self.new ≡ take (length self.old - count) self.old }
    {
        for _taken in 0..count {
            self.drop_back();
        }
    }

    /// The notice at the front.
    pub fn front(&self) -> Option<&Notice>
        ensures { option_copied result ≡ slice_get self.now 0 }
    {
        self.notices.front()
    }

    /// Takes the notice at the front.
    pub fn take_front(&mut self) -> Option<Notice>
        ensures { MatchOption result ((self.old ≡ []) × (self.new ≡ [])) (λ notice. self.old ≡ notice ∷ self.new) }
    {
        self.notices.pop_front()
    }

    /// The sessions that they are for, in their order.
    pub fn recipients(&self, alloc: Global) -> Result<Vec<SessionId>, OutOfMemory>
        ensures { IfOk result (λ sessions. sessions.items ≡ map (λ notice. notice.to) self.now) }
    {
        let mut sessions = Vec::with_capacity(alloc, self.notices.len())?;
        for notice in self.notices.iter() {
            sessions.push(notice.to)?;
        }
        Ok(sessions)
    }

    /// The notice at the front goes.
    pub fn drop_front(&mut self)
        ensures { self.new ≡ drop 1 self.old }
    {
        let _ = self.notices.pop_front();
    }
}
