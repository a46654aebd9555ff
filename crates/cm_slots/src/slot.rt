//! What is kept of one loaded controller, beside its box.

ghost use Rattle.std.specs.Prelude.{◌≡◌, ◌↔◌, ℤ, Bool, List, true, length, Some, None, Err, OnOk, OnErr, option_map};
ghost use Rattle.cm_document.specs.declared.life.Life.TheVariants.{Active};
ghost use Rattle.cm_model.specs.Commit.{leaving};
ghost use Rattle.cm_model.specs.Console.{is_inactive, after_cleanup, after_rate, after_send};
ghost use Rattle.cm_model.specs.Controllers.{activated, configured, is_ready, IsBlank, IsIdle};
ghost use Rattle.cm_model.specs.Controllers.{IsRunning, CanBeConfigured, CanBeActivated};
ghost use Rattle.cm_model.specs.Kinds.{is_refused};
ghost use Rattle.cm_model.specs.Scene.{is_running, is_configured};
ghost use Rattle.cm_model.specs.State.{is_active, life_of};
ghost use Rattle.cm_slots.specs.Commits.{come, CanCome};
ghost use Rattle.cm_slots.specs.Lives.{IsKept};
ghost use Rattle.cm_slots.specs.Mails.{has_mail};

use cm_document::{CtlKind, Life, Mail, Params};
use ctl_trait::{CfgFault, Controller};
use fixed_num::Fx;
use std::alloc::Global;
use std::marker::Model;
use std::snapshot::Snapshot;

/// A loaded controller in its slot: what the manager keeps of it beside its box, which stands apart, since it leaves
/// for a cycle. Contracts see both (`Loaded`).
#[derive(Drop)]
pub struct Slot<C: Controller> {
    serial: u32,
    place: usize,
    rate: u32,
    divisor: Option<u32>,
    kind: CtlKind,
    life: Life,
    mail: Option<Mail>,
    /// The box as it stands here, or as it was when it left. It takes no byte: contracts alone read it.
    ctl: Snapshot<C>,
}

impl<C: Controller> Model for Slot<C> {
    ghost use Rattle.std.specs.Prelude.{◌≡◌};
    ghost use Rattle.cm_model.specs.State.{Loaded};
    ghost use Rattle.cm_slots.specs.Lives.{IsKept};

    ghost Value = { Loaded };

    ghost view = { λ s. record {
      serial = s.serial;
      place = s.place;
      rate = s.rate;
      divisor = s.divisor;
      ctl = C.meaning s.ctl.value;
      mail = s.mail;
    } };

    ghost invariant = { λ s. IsKept s.life (C.meaning s.ctl.value) × (s.kind ≡ (C.meaning s.ctl.value).kind) };
}

impl<C: Controller> Slot<C> {
    /// The slot of a blank under a serial, described at this place with this rate.
    pub(crate) fn new(serial: u32, place: usize, rate: u32, blank: &C) -> Slot<C>
        requires { IsBlank (C.meaning blank.now) }
        ensures { result ≡ record {
          serial = serial;
          place = place;
          rate = rate;
          divisor = None;
          ctl = C.meaning blank.now;
          mail = None;
        } }
    {
        Slot {
            serial,
            place,
            rate,
            divisor: None,
            kind: blank.kind(),
            life: Life::Unconfigured,
            mail: None,
            ctl: Snapshot::of(blank),
        }
    }

    /// The number that its load gave.
    pub fn serial(&self) -> u32
        ensures { result ≡ self.now.serial }
    {
        self.serial
    }

    /// Its place in the description.
    pub fn place(&self) -> usize
        ensures { result ≡ self.now.place }
    {
        self.place
    }

    /// Its update rate in hertz, which counts at its next configure; 0 is the manager's.
    pub fn rate(&self) -> u32
        ensures { result ≡ self.now.rate }
    {
        self.rate
    }

    /// In how many cycles it is updated once; none where it is not configured.
    pub fn divisor(&self) -> Option<u32>
        ensures { result ≡ self.now.divisor }
    {
        self.divisor
    }

    /// Its kind.
    pub fn kind(&self) -> CtlKind
        ensures { result ≡ self.now.ctl.kind }
    {
        self.kind
    }

    /// Its lifecycle state.
    #[tactic(auto, using(crate::proofs::LifeLemmas::life_is))]
    pub fn life(&self) -> Life
        ensures { result ≡ life_of self.now.ctl }
    {
        self.life
    }

    /// Whether it runs.
    #[tactic(auto, using(crate::proofs::LifeLemmas::active_is))]
    pub fn is_active(&self) -> bool
        ensures active { result ≡ is_active self.now }
    {
        is_running(self.life)
    }

    /// Whether it has parameters and does not run.
    #[tactic(auto, using(crate::proofs::LifeLemmas::inactive_is))]
    pub fn is_inactive(&self) -> bool
        ensures inactive { result ≡ is_inactive self.now }
    {
        is_configured(self.life) && !is_running(self.life)
    }

    /// Its box is so from now on, in this lifecycle state.
    fn keep(&mut self, ctl: &C, life: Life)
        requires { IsKept life (C.meaning ctl.now) }
        ensures { self.new ≡ record self.old { ctl = C.meaning ctl.now } }
    {
        self.kind = ctl.kind();
        self.life = life;
        self.ctl = Snapshot::of(ctl);
    }

    /// It gets these parameters, of its kind, in place of those that it has, and is updated once in so many cycles. It
    /// refuses exactly where they say so; with any fault it stays as it was.
    pub(crate) fn configure(
        &mut self,
        box_slot: &mut Option<C>,
        alloc: Global,
        params: &Params,
        divisor: u32,
    ) -> Result<(), CfgFault>
        requires { (option_map C.meaning box_slot.old ≡ Some self.old.ctl) × CanBeConfigured self.old.ctl params.now }
        ensures made { OnOk result
            (self.new ≡ record self.old { ctl = configured self.old.ctl params.now; divisor = Some divisor })
            × OnErr result (self.new ≡ self.old) }
        ensures refused { (result ≡ Err CfgFault.Refused) ↔ (is_refused params.now ≡ true) }
        ensures home { option_map C.meaning box_slot.new ≡ Some self.new.ctl }
    {
        let Some(ctl) = box_slot else {
            unreachable!();
        };
        ctl.configure(alloc, params)?;
        self.keep(ctl, Life::Inactive);
        self.divisor = Some(divisor);
        Ok(())
    }

    /// It gives up its parameters.
    pub(crate) fn cleanup(&mut self, box_slot: &mut Option<C>)
        requires home { option_map C.meaning box_slot.old ≡ Some self.old.ctl }
        requires idle { IsIdle self.old.ctl }
        ensures slot { self.new ≡ after_cleanup self.old }
        ensures home { option_map C.meaning box_slot.new ≡ Some self.new.ctl }
    {
        let Some(ctl) = box_slot else {
            unreachable!();
        };
        ctl.cleanup();
        self.keep(ctl, Life::Unconfigured);
        self.divisor = None;
    }

    /// It gets this rate in hertz, which counts at its next configure.
    pub(crate) fn set_rate(&mut self, hz: u32)
        ensures { self.new ≡ after_rate hz self.old }
    {
        self.rate = hz;
    }

    /// This mail waits for it, in place of any other.
    pub(crate) fn post(&mut self, mail: Mail)
        ensures { self.new ≡ after_send mail self.old }
    {
        self.mail = Some(mail);
    }

    /// It comes to run with its box, with the states of this moment, one for each that it reads, and told whether it
    /// takes its references from the interfaces. No mail waits for it any more. It takes no memory.
    #[tactic(auto, using(crate::proofs::StepLemmas::kept_once_activated))]
    fn activate(&mut self, box_slot: &mut Option<C>, states: &[Fx], chained: bool)
        requires home { option_map C.meaning box_slot.old ≡ Some self.old.ctl }
        requires can { CanBeActivated self.old.ctl (length states.now) }
        ensures slot { self.new ≡ record self.old { ctl = activated self.old.ctl states.now chained; mail = None } }
        ensures home { option_map C.meaning box_slot.new ≡ Some self.new.ctl }
    {
        let Some(ctl) = box_slot else {
            unreachable!();
        };
        ctl.activate(states, chained);
        self.mail = None;
        self.keep(ctl, Life::Active);
    }

    /// It does not run any more, stays configured, and no mail waits for it. It takes no memory.
    #[tactic(auto, using(crate::proofs::StepLemmas::kept_once_deactivated))]
    fn deactivate(&mut self, box_slot: &mut Option<C>)
        requires home { option_map C.meaning box_slot.old ≡ Some self.old.ctl }
        requires running { IsRunning self.old.ctl }
        ensures slot { self.new ≡ leaving self.old }
        ensures home { option_map C.meaning box_slot.new ≡ Some self.new.ctl }
    {
        let Some(ctl) = box_slot else {
            unreachable!();
        };
        ctl.deactivate();
        self.mail = None;
        self.keep(ctl, Life::Inactive);
    }

    /// It does not run any more, whether it ran or not, and no mail waits for it. It takes no memory.
    #[tactic(auto, using(crate::proofs::CommitLemmas::still_as_it_is))]
    pub(crate) fn leave(&mut self, box_slot: &mut Option<C>)
        requires { option_map C.meaning box_slot.old ≡ Some self.old.ctl }
        ensures left { self.new ≡ leaving self.old }
        ensures again { (states : List ℤ) (chained : Bool)
            → come states chained self.new ≡ come states chained self.old }
        ensures home { option_map C.meaning box_slot.new ≡ Some self.new.ctl }
    {
        if is_running(self.life) {
            self.deactivate(box_slot);
        } else {
            self.mail = None;
        }
    }

    /// It comes to run with these states, whether it ran before or not, where it is configured, and no mail waits for
    /// it. It takes no memory.
    pub(crate) fn come(&mut self, box_slot: &mut Option<C>, states: &[Fx], chained: bool)
        requires home { option_map C.meaning box_slot.old ≡ Some self.old.ctl }
        requires can { CanCome (length states.now) self.old }
        ensures slot { self.new ≡ come states.now chained self.old }
        ensures home { option_map C.meaning box_slot.new ≡ Some self.new.ctl }
    {
        self.leave(box_slot);
        if self.is_inactive() {
            self.activate(box_slot, states, chained);
        }
    }

    /// Whether it may be activated before this cycle.
    pub(crate) fn is_ready(&self, box_slot: &Option<C>, cycle: u64) -> bool
        requires { option_map C.meaning box_slot.now ≡ Some self.now.ctl }
        ensures { result ≡ is_ready self.now.ctl cycle }
    {
        match box_slot {
            Some(ctl) => ctl.ready(cycle),
            None => unreachable!(),
        }
    }

    /// Its box, without the rest.
    pub(crate) fn into_ctl(self, box_slot: Option<C>) -> C
        requires { option_map C.meaning box_slot ≡ Some self.ctl }
        ensures { C.meaning result ≡ self.ctl }
    {
        match box_slot {
            Some(ctl) => ctl,
            None => unreachable!(),
        }
    }

    /// Its box leaves, while it runs.
    pub(crate) fn lend(&self, box_slot: &mut Option<C>) -> C
        requires { (is_active self.now ≡ true) × (option_map C.meaning box_slot.old ≡ Some self.now.ctl) }
        ensures lent { C.meaning result ≡ self.now.ctl }
        ensures kept { IsKept Active self.now.ctl }
        ensures left { box_slot.new ≡ None }
    {
        let _ = &self.life;
        match box_slot.take() {
            Some(ctl) => ctl,
            None => unreachable!(),
        }
    }

    /// Its box comes back, which runs.
    pub(crate) fn park(&mut self, box_slot: &mut Option<C>, ctl: C)
        requires { IsKept Active (C.meaning ctl) }
        ensures slot { self.new ≡ record self.old { ctl = C.meaning ctl } }
        ensures home { option_map C.meaning box_slot.new ≡ Some (C.meaning ctl) }
    {
        self.keep(&ctl, Life::Active);
        *box_slot = Some(ctl);
    }

    /// Whether mail waits for it.
    pub(crate) fn has_mail(&self) -> bool
        ensures { result ≡ has_mail self.now }
    {
        self.mail.is_some()
    }

    /// The mail that waits for it; then none waits.
    pub(crate) fn take_mail(&mut self) -> Option<Mail>
        ensures taken { result ≡ self.old.mail }
        ensures none_left { self.new ≡ record self.old { mail = None } }
    {
        self.mail.take()
    }
}

/// Whether a controller in this state runs.
fn is_running(life: Life) -> bool
    ensures { result ≡ is_running life }
{
    matches!(life, Life::Active)
}

/// Whether a controller in this state has parameters.
fn is_configured(life: Life) -> bool
    ensures { result ≡ is_configured life }
{
    matches!(life, Life::Inactive | Life::Active)
}
