//! A shared desk comes home, with all its passes.

ghost use Rattle.std.specs.Prelude.{◌≡◌, ◌<◌, ℕ, true, length, slice_index_or};
ghost use Rattle.std.specs.List.{All};
ghost use Rattle.turn_lock.specs.declared.pass.TurnPass.{TurnPass};
ghost use Rattle.shared_desk.specs.Passes.{IsSessionPass};
ghost use Rattle.rows_desk.specs.Shared.{IsLoopOf};

use crate::shared::looping::Looping;
use cm_desk::Book;
use ctl_trait::Controller;
use shared_desk::{Pass, SharedDesk};

/// The book, if the loop has closed and these are the passes of so many sessions, in order.
pub(crate) fn book_of<C: Controller>(
    desk: SharedDesk<C>,
    looping: Looping<C>,
    passes: Vec<Pass<C>>,
    sessions: u32,
) -> Option<Book<C>>
    requires sessions { All (IsSessionPass desk.lock desk.at_first.value) passes.items }
    requires count { desk.at_first.value.opening.sessions ≡ sessions }
    requires looping { IsLoopOf desk.lock desk.at_first.value looping.pass.pass looping.stand looping.flight }
{
    let Looping { pass, stand, .. } = looping;
    if stand.closed && are_numbered(passes.as_slice(), sessions) {
        return Some(desk.finish(pass, passes));
    }
    None
}

/// Whether these are so many passes, numbered in order.
fn are_numbered<C: Controller>(passes: &[Pass<C>], count: u32) -> bool
    ensures { result ≡ true → (length passes.now ≡ count)
        × ((k : ℕ) (d : TurnPass _ _ _ _) → k < length passes.now → (slice_index_or passes.now k d).number ≡ k) }
{
    passes.len() == count as usize
        && passes
            .iter()
            .enumerate()
            .all(|(place, pass)| pass.number() as usize == place)
}
