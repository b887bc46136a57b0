//! What a port puts on the desk of the control owner.

ghost use Rattle.std.specs.Prelude.{◌≡◌};
ghost use Rattle.mum_port.specs.Steps.{PutsWaiting, PutsWord};

use crate::item::DeskItem;
use crate::stage::Stage;
use mum_outbox::{BoxPass, Desk, Offered};
use std::sync::Wait;

// Offers what waits, if something does. A full desk gives it back.
pub(crate) fn put_waiting<R: Wait>(
    rt: &R,
    desk: &Desk<DeskItem>,
    pass: &mut BoxPass<DeskItem>,
    waiting: &mut Option<DeskItem>,
) -> bool
    requires { pass.old.queue ≡ desk.now.queue }
    ensures { PutsWaiting waiting.old pass.old result pass.new waiting.new }
{
    let Some(item) = waiting.take() else {
        return false;
    };
    match desk.offer_as(rt, pass, item) {
        Offered::Sent => true,
        Offered::Full(back) => {
            drop(waiting.replace(back));
            false
        }
    }
}

// Offers a word of the farewell. Where the desk is full it is offered again in the next step.
pub(crate) fn put_word<R: Wait>(
    rt: &R,
    desk: &Desk<DeskItem>,
    pass: &mut BoxPass<DeskItem>,
    word: DeskItem,
    stage: &mut Stage,
) -> bool
    requires { pass.old.queue ≡ desk.now.queue }
    ensures { PutsWord word pass.old stage.old result pass.new stage.new }
{
    match desk.offer_as(rt, pass, word) {
        Offered::Sent => {
            *stage = stage.after_word();
            true
        }
        Offered::Full(back) => {
            drop(back);
            false
        }
    }
}
