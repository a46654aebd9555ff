//! A desk is shared, and comes home.

ghost use Rattle.std.specs.Prelude.{◌≡◌, ◌+◌, ◌<◌, [], map, Some, IfOk};
ghost use Rattle.cm_desk.specs.Calls.Answers.{IsHandedOver};
ghost use Rattle.turn_lock.specs.Calls.Count.{AddsOne};
ghost use Rattle.turn_lock.specs.Passes.{HasTurn, Becomes, seats_of, view};
ghost use Rattle.turn_lock.specs.Views.{counted, published, passed_on};
ghost use Rattle.turn_lock.specs.declared.TheConstants.{MOST_SEATS};
ghost use Rattle.turn_lock.specs.declared.kept.Shown.TheVariants.{Cycles, Tickets};
ghost use Rattle.shared_desk.specs.Calls.Home.{AreHandedIn, ComesHome};
ghost use Rattle.shared_desk.specs.Calls.Share.{Shares};
ghost use Rattle.shared_desk.specs.Passes.{IsAt};
ghost use Rattle.shared_desk.specs.Turns.{Finds};

use crate::kept::KeptDesk;
use crate::passes::{LoopPass, Pass};
use cm_desk::{Book, Desk};
use ctl_trait::Controller;
use fixed_num::Memory;
use std::alloc::Global;
use std::snapshot::Snapshot;
use std::sync::Wait;
use turn_lock::{Shown, TurnLock};

/// A desk that its passes share.
#[derive(Drop)]
pub struct SharedDesk<C: Controller> {
    pub(crate) alloc: Global,
    pub(crate) lock: TurnLock<KeptDesk<C>>,
    /// The desk as it was shared. It takes no byte: contracts alone read it.
    pub(crate) at_first: Snapshot<KeptDesk<C>>,
    // A seat for each session, and one for the loop.
    pub ghost seats: { seats_of lock ≡ at_first.value.opening.sessions + 1 },
}

impl<C: Controller> SharedDesk<C> {
    /// The desk, which has no entries yet, with the pass of the loop and those of the sessions, in order. If memory
    /// runs out the desk is dropped.
    pub fn share(
        alloc: Global,
        desk: Desk<C>,
    ) -> Result<(SharedDesk<C>, LoopPass<C>, Vec<Pass<C>>), Memory>
        requires empty { desk.made ≡ [] }
        requires few { desk.opening.sessions < MOST_SEATS }
        ensures shared { IfOk result (λ r. Shares desk r.0.lock r.0.at_first.value r.1.pass r.2.items) }
    {
        let sessions = desk.sessions();
        let kept = KeptDesk::keep(alloc, desk)?;
        let at_first = Snapshot::of(&kept);
        let (lock, mut passes) = TurnLock::make(alloc, kept, sessions + 1)?;
        let Some(pass) = passes.pop() else {
            unreachable!();
        };
        let shared = SharedDesk {
            alloc,
            lock,
            at_first,
        };
        Ok((shared, LoopPass { pass }, passes))
    }

    /// Takes the turn, and hands out the desk.
    pub(crate) fn take_turn<R: Wait>(&self, rt: &R, pass: &mut Pass<C>) -> KeptDesk<C>
        requires { IsAt self.now.lock self.now.at_first.value pass.old }
        ensures { Finds self.now.lock self.now.at_first.value pass.old pass.new result }
    {
        let kept = self.lock.take(rt, pass);
        kept.is_right();
        kept
    }

    /// Counts the entry that the desk has made at this turn, publishes both numbers of its history, and passes the turn
    /// on.
    pub(crate) fn put_grown(&self, pass: &mut Pass<C>, kept: KeptDesk<C>)
        requires turn { HasTurn self.now.lock pass.old }
        requires added { AddsOne pass.old kept }
        requires footing { (view pass.old).footing ≡ Some kept.opening }
        ensures { Becomes pass.old pass.new
            (passed_on (published Tickets (published Cycles (counted kept.made (view pass.old))))) }
    {
        self.lock.count(pass, &kept);
        self.lock.publish(pass, Shown::Cycles, kept.ended());
        self.lock.publish(pass, Shown::Tickets, kept.decided());
        self.lock.put(pass, kept);
    }

    /// The desk, once all its passes are handed in and the loop is closed. It takes no memory.
    pub fn home(self, looping: LoopPass<C>, passes: Vec<Pass<C>>) -> Desk<C>
        requires { AreHandedIn self.lock self.at_first.value looping.pass passes.items }
        ensures home { ComesHome self.at_first.value looping.pass passes.items result }
    {
        let SharedDesk { lock, .. } = self;
        let LoopPass { pass } = looping;
        let kept = lock.finish(pass, passes);
        kept.is_right();
        kept.into_desk()
    }

    /// The book, once all passes are handed in and the loop is closed: its history is legal and sound, and has all
    /// entries of these passes and no others. It takes no memory.
    pub fn finish(self, looping: LoopPass<C>, passes: Vec<Pass<C>>) -> Book<C>
        requires { AreHandedIn self.lock self.at_first.value looping.pass passes.items }
        ensures home { ComesHome self.at_first.value looping.pass passes.items
            (record { opening = self.at_first.value.opening; made = result.history.items }) }
        ensures book { IsHandedOver (record { opening = self.at_first.value.opening; made = result.history.items })
            result.history.items (map C.meaning result.boxes.items) }
    {
        self.home(looping, passes).finish()
    }
}
