//! Looks at the published numbers, which need no turn.

ghost use Rattle.std.specs.Prelude.{◌≡◌};
ghost use Rattle.turn_lock.specs.declared.kept.Shown.TheVariants as shown;
ghost use Rattle.shared_desk.specs.Calls.Looks.{Looks};
ghost use Rattle.shared_desk.specs.Passes.{IsSessionPass};

use crate::passes::Pass;
use crate::shared::SharedDesk;
use ctl_trait::Controller;
use turn_lock::Shown;

impl<C: Controller> SharedDesk<C> {
    /// How many cycles have ended, as it is published now. It waits for nobody, takes no turn and no memory.
    pub fn cycles_seen(&self, pass: &mut Pass<C>) -> u64
        requires console { IsSessionPass self.now.lock self.now.at_first.value pass.old }
        ensures { Looks shown.Cycles self.now.lock self.now.at_first.value pass.old pass.new result }
    {
        self.lock.seen(pass, Shown::Cycles)
    }

    /// How many requests are decided, as it is published now. It waits for nobody, takes no turn and no memory.
    pub fn tickets_seen(&self, pass: &mut Pass<C>) -> u64
        requires console { IsSessionPass self.now.lock self.now.at_first.value pass.old }
        ensures { Looks shown.Tickets self.now.lock self.now.at_first.value pass.old pass.new result }
    {
        self.lock.seen(pass, Shown::Tickets)
    }
}
