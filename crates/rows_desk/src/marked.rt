//! A controller that tells whether it is configured, and whether it runs.

ghost use Rattle.std.specs.Prelude.{◌≡◌, IfOk};
ghost use Rattle.std.specs.List.{All};
ghost use Rattle.cm_model.specs.Controllers.{IsBlank};

use cm_document::{CtlKind, Mail, Params};
use cm_model::Tick;
use cm_storage::Done;
use ctl_trait::{CfgFault, Controller};
use fixed_num::{Fx, Value};
use std::alloc::Global;
use std::marker::Model;
use std::test::Fail;

/// A controller, with the number of claims that its parameters are for, where it is configured, and whether it runs.
#[derive(Drop)]
pub(crate) struct Marked<C: Controller> {
    ctl: C,
    claims: Option<usize>,
    runs: bool,
}

impl<C: Controller> Model for Marked<C> {
    ghost use Rattle.std.specs.Prelude.{◌≡◌, option_map, is_some};
    ghost use Rattle.cm_document.specs.Params.{shape_of};
    ghost use Rattle.cm_model.specs.declared.data.CtlData.{CtlData};

    ghost Value = { CtlData };

    ghost view = { λ m. C.meaning m.ctl };

    ghost invariant = { λ m.
        (option_map (λ p. (shape_of p).claims) (C.meaning m.ctl).params ≡ m.claims)
        × (is_some (C.meaning m.ctl).run ≡ m.runs) };
}

impl<C: Controller> Marked<C> {
    /// A blank.
    pub fn blank(ctl: C) -> Marked<C>
        requires { IsBlank (C.meaning ctl) }
        ensures { result ≡ C.meaning ctl }
    {
        Marked {
            ctl,
            claims: None,
            runs: false,
        }
    }

    /// Appends its kind, for how many claims it is configured, and that it runs.
    pub fn push_to(&self, told: &mut String) -> Result<(), Fail> {
        told.push_str(self.ctl.kind().word())?;
        match self.claims {
            Some(claims) => write!(told, " for {claims}")?,
            None => told.push_str(", blank")?,
        }
        told.push_str(if self.runs { ", running" } else { "" })?;
        Ok(())
    }
}

impl<C: Controller> Controller for Marked<C> {
    ghost meaning = { λ m. m };

    fn kind(&self) -> CtlKind {
        self.ctl.kind()
    }

    fn configure(&mut self, alloc: Global, params: &Params) -> Result<(), CfgFault> {
        self.ctl.configure(alloc, params)?;
        self.claims = Some(params.shape().claims);
        self.runs = false;
        Ok(())
    }

    fn ready(&self, cycle: u64) -> bool {
        self.ctl.ready(cycle)
    }

    fn activate(&mut self, states: &[Fx], chained: bool) {
        self.ctl.activate(states, chained);
        self.runs = true;
    }

    #[tactic(auto, using(ctl_trait::proofs::TakingLemmas::can_take))]
    fn take(&mut self, mail: Mail) {
        self.ctl.take(mail);
    }

    #[tactic(auto, using(cm_model::proofs::ControllerLemmas::updating))]
    fn update(&mut self, tick: Tick, states: &[Fx], refs: &[Value], outs: &mut [Value]) -> Done {
        self.ctl.update(tick, states, refs, outs)
    }

    fn deactivate(&mut self) {
        self.ctl.deactivate();
        self.runs = false;
    }

    fn cleanup(&mut self) {
        self.ctl.cleanup();
        self.claims = None;
    }
}

/// Blanks, marked.
pub(crate) fn with_marks<C: Controller>(
    alloc: Global,
    mut blanks: Vec<C>,
) -> Result<Vec<Marked<C>>, Fail>
    requires { All (λ b. IsBlank (C.meaning b)) blanks.items }
    ensures { IfOk result (λ all. All IsBlank all.items) }
{
    let mut all = Vec::new(alloc);
    while let Some(blank) = blanks.pop() {
        all.push(Marked::blank(blank))?;
    }
    Ok(all)
}
