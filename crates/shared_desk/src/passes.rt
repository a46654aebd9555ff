//! The passes of a desk.

use crate::kept::{KeptDesk, Opening};
use cm_model::Entry;
use ctl_trait::Controller;
use turn_lock::{Kept, TurnPass};

/// The pass of a session.
pub type Pass<C> = TurnPass<KeptDesk<C>>;

/// The pass of the loop.
#[derive(Drop)]
pub struct LoopPass<C: Controller>
where
    KeptDesk<C>: Kept<Entry = Entry, Ground = Opening>,
{
    pub(crate) pass: TurnPass<KeptDesk<C>>,
}
