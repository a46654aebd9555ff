//! How a console waits for what no turn of its own brings about: it looks at what is published, which takes no turn,
//! and rests between its looks. A turn in vain would make the loop wait for its own.

ghost use Rattle.shared_desk.specs.Passes.{IsAt};
ghost use Rattle.shared_desk.specs.Ports.{Watches};

use crate::passes::Pass;
use crate::shared::SharedDesk;
use ctl_trait::Controller;
use std::sync::Wait;
use std::thread;
use turn_lock::Shown;

/// So many looks come first, with a yield of the thread after each: most of what is waited for comes soon.
const LOOKS_WITH_YIELDS: u32 = 16;

/// So many looks follow, with a sleep after each, a hundredth of a second in all. Whether the loop is closed is not
/// published, so a turn finds that out then.
const LOOKS_WITH_SLEEPS: u32 = 9;

/// The first sleep and the longest, in microseconds. Each is twice as long as the one before.
const FIRST_SLEEP: u64 = 50;

const LONGEST_SLEEP: u64 = 4_000;

impl<C: Controller> SharedDesk<C> {
    /// Looks for a while until such a number, or a greater one, is published. It takes no turn.
    #[tactic(auto, using(crate::proofs::PortLemmas::looked_again))]
    pub(crate) fn watch<R: Wait>(&self, rt: &R, pass: &mut Pass<C>, which: Shown, least: u64)
        requires { IsAt self.now.lock self.now.at_first.value pass.old }
        ensures { Watches self.now.lock self.now.at_first.value pass.old pass.new }
    {
        if !self.watch_awake(pass, which, least) {
            self.watch_drowsily(rt, pass, which, least);
        }
    }

    /// Looks and yields. Whether such a number came.
    #[tactic(auto, using(crate::proofs::PortLemmas::looked_on, crate::proofs::PortLemmas::not_looked))]
    fn watch_awake(&self, pass: &mut Pass<C>, which: Shown, least: u64) -> bool
        requires { IsAt self.now.lock self.now.at_first.value pass.old }
        ensures { Watches self.now.lock self.now.at_first.value pass.old pass.new }
    {
        for _ in 0..LOOKS_WITH_YIELDS {
            if self.lock.seen(pass, which) >= least {
                return true;
            }
            thread::yield_now();
        }
        false
    }

    /// Looks and sleeps, longer each time.
    #[tactic(auto, using(crate::proofs::PortLemmas::looked_on, crate::proofs::PortLemmas::not_looked))]
    fn watch_drowsily<R: Wait>(&self, rt: &R, pass: &mut Pass<C>, which: Shown, least: u64)
        requires { IsAt self.now.lock self.now.at_first.value pass.old }
        ensures { Watches self.now.lock self.now.at_first.value pass.old pass.new }
    {
        let mut micros = FIRST_SLEEP;
        for _ in 0..LOOKS_WITH_SLEEPS {
            let found = self.lock.seen(pass, which);
            if found >= least {
                return;
            }
            self.lock.rest(rt, which, found, micros);
            micros = micros.saturating_add(micros).min(LONGEST_SLEEP);
        }
    }
}
