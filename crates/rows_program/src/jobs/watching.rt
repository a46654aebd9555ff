//! A controller that waits in its update until another is updated too.

ghost use Rattle.std.specs.Prelude.{IfOk};
ghost use Rattle.std.specs.List.{All};
ghost use Rattle.cm_model.specs.Controllers.{IsBlank};

use crate::jobs::meeting::Meeting;
use cm_document::{CtlKind, Mail, Params};
use cm_model::Tick;
use cm_storage::Done;
use ctl_trait::{CfgFault, Controller};
use fixed_num::{Fx, Value};
use sequence::Shared;
use std::alloc::Global;
use std::marker::Model;
use std::test::Fail;

/// A controller, with the meeting to which it comes in each update, as the first or the second.
#[derive(Drop)]
pub(crate) struct Watching<C: Controller> {
    ctl: C,
    meeting: Shared<Meeting>,
    is_first: bool,
}

impl<C: Controller> Model for Watching<C> {
    ghost use Rattle.cm_model.specs.declared.data.CtlData.{CtlData};

    ghost Value = { CtlData };

    ghost view = { λ w. C.meaning w.ctl };
}

impl<C: Controller> Watching<C> {
    /// A blank.
    fn blank(ctl: C, meeting: Shared<Meeting>, is_first: bool) -> Watching<C>
        requires { IsBlank (C.meaning ctl) }
        ensures { IsBlank result }
    {
        Watching {
            ctl,
            meeting,
            is_first,
        }
    }
}

impl<C: Controller> Controller for Watching<C> {
    ghost meaning = { λ w. w };

    fn kind(&self) -> CtlKind {
        self.ctl.kind()
    }

    fn configure(&mut self, alloc: Global, params: &Params) -> Result<(), CfgFault> {
        self.ctl.configure(alloc, params)
    }

    fn ready(&self, cycle: u64) -> bool {
        self.ctl.ready(cycle)
    }

    fn activate(&mut self, states: &[Fx], chained: bool) {
        self.ctl.activate(states, chained);
    }

    #[tactic(auto, using(ctl_trait::proofs::TakingLemmas::can_take))]
    fn take(&mut self, mail: Mail) {
        self.ctl.take(mail);
    }

    #[tactic(auto, using(cm_model::proofs::ControllerLemmas::updating))]
    fn update(&mut self, tick: Tick, states: &[Fx], refs: &[Value], outs: &mut [Value]) -> Done {
        self.meeting.get().come(self.is_first);
        self.ctl.update(tick, states, refs, outs)
    }

    fn deactivate(&mut self) {
        self.ctl.deactivate();
    }

    fn cleanup(&mut self) {
        self.ctl.cleanup();
    }
}

/// Blanks that come to a meeting, as the first and as the second in turn.
pub(crate) fn all_watching<C: Controller>(
    alloc: Global,
    mut blanks: Vec<C>,
    meeting: &Shared<Meeting>,
) -> Result<Vec<Watching<C>>, Fail>
    requires { All (λ b. IsBlank (C.meaning b)) blanks.items }
    ensures { IfOk result (λ all. All IsBlank all.items) }
{
    let mut all = Vec::new(alloc);
    let mut is_first = true;
    while let Some(blank) = blanks.pop() {
        all.push(Watching::blank(blank, meeting.share()?, is_first))?;
        is_first = !is_first;
    }
    Ok(all)
}
