//! The views of a viewer.

ghost use Rattle.std.specs.Prelude.{◌≡◌, ◌+◌, ◌<◌, ◌^◌, [], IfOk, IsTrue, length};
ghost use Rattle.std.specs.List.{AllByRecursion};
ghost use Rattle.mum_io.specs.Link.{Keeps};
ghost use Rattle.mum_viewer.specs.Look.{IsViewAsk};
ghost use Rattle.mum_viewer.specs.Views.{Admits, Answers, StepsViews, no_views};

use crate::list::{OpenViews, VIEWS_OPEN};
use crate::look::Looker;
use crate::view::Counted;
use mum_base::OutOfMemory;
use mum_io::{Accept, Link};
use mum_published::Pass;
use std::alloc::Global;
use std::marker::Model;
use std::mem::drop;
use std::sync::Wait;

// The open views, what is counted of them, and the pass that looks for them.
#[derive(Drop)]
pub(crate) struct Views<L: Link> {
    pass: Looker,
    list: OpenViews<L>,
    given: u32,
    whole: u64,
    no_memory: bool,
}

impl<L: Link> Model for Views<L> {
    ghost use Rattle.mum_viewer.specs.Views.{AreViews, ViewsFacts};

    ghost Value = { ViewsFacts L };

    ghost view = { λ v. record {
      pass = v.pass;
      list = v.list;
      given = v.given;
      whole = v.whole;
      no_memory = v.no_memory;
    } };

    ghost invariant = { λ v. AreViews v.pass v.given v.list };
}

// A link that gets no text is shut.
fn turn_away<L: Link>(link: L) -> L
    ensures shut { IsTrue (L.facts result).is_shut }
    ensures same { Keeps (L.facts link).written (L.facts result).written }
    ensures reads_nothing { Keeps (L.facts link).left (L.facts result).left }
{
    let mut link = link;
    link.shut();
    link
}

impl<L: Link> Views<L> {
    // No view yet.
    pub(crate) fn open(alloc: Global, pass: Pass) -> Result<Views<L>, OutOfMemory>
        requires { pass.asks ≡ [] }
        ensures { IfOk result (λ views. views ≡ no_views pass) }
    {
        let list = match OpenViews::open(alloc) {
            Ok(list) => list,
            Err(error) => {
                drop(pass);
                return Err(error);
            }
        };
        Ok(Views {
            pass: Looker::new(pass),
            list,
            given: 0,
            whole: 0,
            no_memory: false,
        })
    }

    // The pass that looks for them.
    pub(crate) fn pass(&self) -> &Pass
        ensures { result.now ≡ self.now.pass }
    {
        self.pass.pass()
    }

    // How many there were.
    pub(crate) fn given(&self) -> u32
        ensures { result ≡ self.now.given }
    {
        self.given
    }

    // How many are open.
    pub(crate) fn len(&self) -> usize
        ensures { result ≡ length self.now.list }
    {
        self.list.len()
    }

    // Each open view makes its step. Answers whether one did anything.
    pub(crate) fn step(&mut self) -> bool
        ensures { StepsViews L.facts self.old result self.new }
    {
        let counted = self.list.step(Counted {
            whole: self.whole,
            worked: false,
        });
        self.whole = counted.whole;
        counted.worked
    }

    // A connection came: it gets the text of what one look finds, or is shut where there is no memory.
    fn admit<R: Wait>(&mut self, rt: &R, alloc: Global, link: L)
        requires few { length self.old.list < VIEWS_OPEN }
        requires fits { self.old.given + 1 < 2 ^ 32 }
        ensures { Admits L.facts self.old link self.new }
    {
        self.given += 1;
        match self.pass.text(rt, alloc) {
            Ok(text) => self.list.push(link, text),
            Err(_) => {
                drop(turn_away(link));
                self.no_memory = true;
            }
        }
    }

    // Takes the door's answer. Answers whether it was a connection, an end or a fault.
    pub(crate) fn take<R: Wait>(&mut self, rt: &R, alloc: Global, answer: Accept<L>) -> bool
        requires few { length self.old.list < VIEWS_OPEN }
        requires fits { self.old.given + 1 < 2 ^ 32 }
        ensures { Answers L.facts self.old answer result self.new }
    {
        match answer {
            Accept::Conn(link) => {
                self.admit(rt, alloc, link);
                true
            }
            Accept::NotYet => false,
            Accept::End => true,
            Accept::Failed => true,
        }
    }

    // How many texts were taken whole, and whether a view found no memory.
    pub(crate) fn close(self) -> (u64, bool)
        ensures whole { result.0 ≡ self.whole }
        ensures no_memory { result.1 ≡ self.no_memory }
        ensures one_each { length self.pass.asks ≡ self.given }
        ensures asks { AllByRecursion IsViewAsk self.pass.asks }
    {
        let Views {
            pass,
            list,
            given: _,
            whole,
            no_memory,
        } = self;
        drop(pass);
        drop(list);
        (whole, no_memory)
    }
}
