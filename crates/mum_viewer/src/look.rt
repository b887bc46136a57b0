//! The looks that are made for views.

ghost use Rattle.std.specs.Prelude.{◌≡◌, IfOk, IfSome, IsTrue};
ghost use Rattle.mum_published.specs.Calls.{state_of};
ghost use Rattle.mum_viewer.specs.Look.{Looks, view_ask};
ghost use Rattle.mum_viewer.specs.Picture.{picture_of};
ghost use Rattle.mum_viewer.specs.Text.{picture_text, view_text};

use crate::picture::Picture;
use arrayvec::ArrayVec;
use mum_base::{Octets, OutOfMemory, SessionId};
use mum_published::{Ask, Pass};
use mum_state::State;
use std::alloc::Global;
use std::marker::Model;
use std::mem::drop;
use std::sync::Wait;

// A pass that looks for views. It keeps the text of its last look, so that the text is not made again
// where no edit came since.
#[derive(Drop)]
pub(crate) struct Looker {
    pass: Pass,
    // The text of the state that the last look found.
    kept: Option<Octets>,
}

impl Model for Looker {
    ghost use Rattle.std.specs.Prelude.{◌≡◌, IfSome};
    ghost use Rattle.mum_published.specs.Calls.{state_of};
    ghost use Rattle.mum_published.specs.Facts.{PassFacts};
    ghost use Rattle.mum_viewer.specs.Text.{view_text};

    ghost Value = { PassFacts };

    ghost view = { λ l. l.pass };

    ghost invariant = { λ l. IfSome l.kept (λ text. text ≡ view_text (state_of l.pass.opening l.pass.known)) };
}

// What a view asks.
fn view_ask() -> Ask
    ensures { result ≡ view_ask }
{
    Ask {
        speaker: SessionId(0),
        target: 0,
        packet: ArrayVec::new(),
    }
}

// One look, and the picture of what it found; and whether it saw no edit that was not known before. No text
// is made before the look is over: while it lasts, the publisher may have to wait.
fn look_once<R: Wait>(
    rt: &R,
    alloc: Global,
    pass: &mut Pass,
) -> (Result<Picture, OutOfMemory>, bool)
    ensures looks { Looks picture_of pass.old result.0 pass.new }
    ensures same { IsTrue result.1 → pass.new.known ≡ pass.old.known }
{
    let before = pass.revision();
    let picture = pass.look(
        rt,
        view_ask(),
        &mut |state: &State| { Picture::of(alloc, state) },
    );
    (picture, pass.revision() == before)
}

fn new_text(alloc: Global, picture: &Picture) -> Result<Octets, OutOfMemory>
    ensures { IfOk result (λ text. text ≡ picture_text picture.now) }
{
    picture.text(alloc)?.into_shared()
}

// The text that was kept, where it is that of the picture, or a new one.
fn text_for(
    alloc: Global,
    picture: &Picture,
    kept: Option<Octets>,
    is_same: bool,
) -> Result<Octets, OutOfMemory>
    requires { IsTrue is_same → IfSome kept (λ text. text ≡ picture_text picture.now) }
    ensures { IfOk result (λ text. text ≡ picture_text picture.now) }
{
    match kept {
        None => new_text(alloc, picture),
        Some(text) => {
            if is_same {
                return Ok(text);
            }
            drop(text);
            new_text(alloc, picture)
        }
    }
}

// One look, and the text of the state that it found: the one that was kept, where no edit came since.
fn text_by<R: Wait>(
    rt: &R,
    alloc: Global,
    pass: &mut Pass,
    kept: Option<Octets>,
) -> Result<Octets, OutOfMemory>
    requires { IfSome kept (λ text. text ≡ view_text (state_of pass.old.opening pass.old.known)) }
    ensures { Looks view_text pass.old result pass.new }
{
    let (picture, is_same) = look_once(rt, alloc, pass);
    match picture {
        Ok(picture) => text_for(alloc, &picture, kept, is_same),
        Err(error) => {
            drop(kept);
            Err(error)
        }
    }
}

impl Looker {
    pub(crate) fn new(pass: Pass) -> Looker
        ensures { result ≡ pass }
    {
        Looker { pass, kept: None }
    }

    // The pass that looks.
    pub(crate) fn pass(&self) -> &Pass
        ensures { result.now ≡ self.now }
    {
        &self.pass
    }

    // One look, and the text of the state that it found.
    pub(crate) fn text<R: Wait>(&mut self, rt: &R, alloc: Global) -> Result<Octets, OutOfMemory>
        ensures { Looks view_text self.old result self.new }
    {
        let kept = self.kept.take();
        let text = text_by(rt, alloc, &mut self.pass, kept)?;
        self.kept = Some(text.share()?);
        Ok(text)
    }
}
