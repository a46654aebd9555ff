//! How controllers come to their cells, and leave them.

ghost use Rattle.std.specs.Prelude.{◌≡◌, ◌<◌, [], map, length, reverse, vec_capacity};
ghost use Rattle.cm_document.specs.declared.life.Life.TheVariants.{Active};
ghost use Rattle.cm_slots.specs.Lives.{IsKept};
ghost use Rattle.cm_slots.specs.Mails.{mail_in, without_mail};
ghost use Rattle.cm_desk.specs.Filling.{cells_filled, cell_of, AreGone, CanFill, CanLeave, HaveLeft};

use cm_resources::empty;
use cm_slots::{MailAloft, Slot, take_mail};
use ctl_trait::Controller;
use rt_flight::{Cell, Workspace};

/// The cells of those that run are filled, whose slots stand at these indices in the order of updates: each comes to
/// its workspace, with its box and the mail that is aloft for it. There is room: the call takes no memory.
pub(crate) fn fill_cells<C: Controller>(
    slots: &[Slot<C>],
    run: &[u32],
    mails: &mut Vec<MailAloft>,
    workspaces: &mut Vec<Workspace>,
    boxes: &mut Vec<C>,
    cells: &mut Vec<Cell<C>>,
)
    requires { CanFill slots.now run.now workspaces.old.items (map C.meaning boxes.old.items) cells.old.items
        (vec_capacity cells.old) }
    ensures cells_filled { cells.new.items
        ≡ cells_filled slots.now mails.old.items run.now workspaces.old.items (map C.meaning boxes.old.items) }
    ensures workspaces { AreGone workspaces.new.items (vec_capacity workspaces.old) (vec_capacity workspaces.new) }
    ensures boxes { AreGone boxes.new.items (vec_capacity boxes.old) (vec_capacity boxes.new) }
{
    turn_round(workspaces);
    turn_round(boxes);
    for index in run {
        let (Some(workspace), Some(ctl)) = (workspaces.pop(), boxes.pop()) else {
            unreachable!();
        };
        cells.push_reserved(cell_for(&slots[*index as usize], mails, workspace, ctl));
    }
}

/// One of them comes to its workspace, where it is updated once in as many cycles as its slot says.
fn cell_for<C: Controller>(
    slot: &Slot<C>,
    mails: &mut Vec<MailAloft>,
    workspace: Workspace,
    ctl: C,
) -> Cell<C>
    requires { IsKept Active (C.meaning ctl) }
    ensures cell_for { result ≡ cell_of mails.old.items slot.now workspace (C.meaning ctl) }
    ensures mails { mails.new.items ≡ without_mail workspace.serial mails.old.items }
{
    let mail = take_mail(mails, workspace.serial());
    let workspace = workspace.timed(slot.divisor().unwrap_or(1));
    Cell::new(workspace, ctl, mail)
}

/// The controllers leave their cells: their boxes and their workspaces are apart again, in the order of updates. It
/// takes no memory.
pub(crate) fn empty_cells<C: Controller>(
    cells: &mut Vec<Cell<C>>,
    workspaces: &mut Vec<Workspace>,
    boxes: &mut Vec<C>,
)
    requires { CanLeave (length cells.old.items) (vec_capacity workspaces.old) (vec_capacity boxes.old) }
    ensures left { HaveLeft cells.old.items workspaces.new.items (map C.meaning boxes.new.items) }
    ensures empty { cells.new.items ≡ [] }
    ensures room { (vec_capacity workspaces.new ≡ vec_capacity workspaces.old)
        × (vec_capacity boxes.new ≡ vec_capacity boxes.old) }
{
    empty(workspaces);
    empty(boxes);
    turn_round(cells);
    while let Some(cell) = cells.pop() {
        let (workspace, ctl) = cell.leave();
        workspaces.push_reserved(workspace);
        boxes.push_reserved(ctl);
    }
}

/// The list is turned round.
#[tactic(auto, using(crate::proofs::FillingLemmas::reverse_few))]
fn turn_round<T: Drop>(list: &mut Vec<T>)
    ensures items { list.new.items ≡ reverse list.old.items }
    ensures capacity { vec_capacity list.new ≡ vec_capacity list.old }
{
    if list.len() > 1 {
        list.reverse();
    }
}
