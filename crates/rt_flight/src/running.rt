//! A box whose controller runs.

ghost use Rattle.std.specs.Prelude.{◌≡◌, length, IfSome};
ghost use Rattle.cm_document.specs.declared.life.Life.TheVariants.{Active};
ghost use Rattle.cm_model.specs.Controllers.{ctl_step};
ghost use Rattle.cm_model.specs.Kinds.{publishes};
ghost use Rattle.cm_slots.specs.Lives.{once_taken, CanBeStepped, IsKept};
ghost use Rattle.ctl_trait.specs.Taking.{CanTake};
ghost use Rattle.rt_flight.specs.Calls.Workspaces.{TakesStep};

use cm_document::Mail;
use cm_model::Tick;
use cm_storage::Done;
use ctl_trait::{Controller, publishes};
use fixed_num::{Fx, Value};
use std::marker::Model;

/// A box whose controller runs. Contracts see its data.
#[derive(Drop)]
pub(crate) struct Running<C: Controller> {
    ctl: C,
}

impl<C: Controller> Model for Running<C> {
    ghost use Rattle.cm_document.specs.declared.life.Life.TheVariants.{Active};
    ghost use Rattle.cm_model.specs.declared.data.CtlData.{CtlData};
    ghost use Rattle.cm_slots.specs.Lives.{IsKept};

    ghost Value = { CtlData };

    ghost view = { λ r. C.meaning r.ctl };

    ghost invariant = { λ r. IsKept Active (C.meaning r.ctl) };
}

impl<C: Controller> Running<C> {
    /// The box of a controller that runs.
    pub(crate) fn new(ctl: C) -> Running<C>
        requires { IsKept Active (C.meaning ctl) }
        ensures { result ≡ C.meaning ctl }
    {
        Running { ctl }
    }

    /// The box.
    pub(crate) fn into_ctl(self) -> C
        ensures ctl { C.meaning result ≡ self }
        ensures kept { IsKept Active (C.meaning result) }
    {
        self.ctl
    }

    /// Whether it publishes what it reads.
    pub(crate) fn publishes(&self) -> bool
        ensures { result ≡ publishes self.now.kind }
    {
        publishes(self.ctl.kind())
    }

    /// It takes its mail, where there is some, and then computes, from the states that it reads and from its
    /// references, a value for each of its claims. After an error these are as they were. It takes no memory.
    #[tactic(auto, using(cm_slots::proofs::StepLemmas::can_be_updated_once_taken, cm_slots::proofs::StepLemmas::step_is, cm_slots::proofs::StepLemmas::kept_once_stepped, cm_slots::proofs::StepLemmas::published_is, cm_slots::proofs::StepLemmas::erred_gives_none))]
    pub(crate) fn update(
        &mut self,
        tick: Tick,
        states: &[Fx],
        references: &[Value],
        mail: Option<Mail>,
        outs: &mut [Value],
    ) -> Done
        requires { CanBeStepped self.old tick (length states.now) (length references.now) (length outs.old) mail }
        ensures { TakesStep (ctl_step self.old tick states.now references.now mail) self.old.kind states.now
            outs.old outs.new self.new result }
    {
        hand(&mut self.ctl, mail);
        self.ctl.update(tick, states, references, outs)
    }
}

/// The controller takes the mail, where there is some.
fn hand<C: Controller>(ctl: &mut C, mail: Option<Mail>)
    requires { IfSome mail (CanTake (C.meaning ctl.old)) }
    ensures { C.meaning ctl.new ≡ once_taken (C.meaning ctl.old) mail }
{
    if let Some(mail) = mail {
        ctl.take(mail);
    }
}
