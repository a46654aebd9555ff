//! Boxes that leave their slots, and come back.

ghost use Rattle.std.specs.Prelude.{◌≡◌, ◌≤◌, [], true, length, map, Some, option_map, is_some, vec_len, vec_capacity};
ghost use Rattle.std.specs.List.{AllByRecursion};
ghost use Rattle.cm_slots.specs.Calls.Slots.{CanLendEach, HaveLeft, CanParkEach, AreBack};

use crate::slot::Slot;
use ctl_trait::Controller;

/// The boxes at these indices leave, in this order, into room for them.
pub(crate) fn lend_each<C: Controller>(
    slots: &[Slot<C>],
    boxes: &mut [Option<C>],
    run: &[u32],
    lent: &mut Vec<C>,
)
    requires { CanLendEach slots.now (map (option_map C.meaning) boxes.old) run.now (vec_len lent.old)
        (vec_capacity lent.old) }
    ensures left { HaveLeft slots.now run.now
        (map (option_map C.meaning) boxes.old) (map (option_map C.meaning) boxes.new)
        (map C.meaning lent.old.items) (map C.meaning lent.new.items) }
    ensures capacity { vec_capacity lent.new ≡ vec_capacity lent.old }
{
    for index in run {
        let ctl = slots[*index as usize].lend(&mut boxes[*index as usize]);
        lent.push_reserved(ctl);
    }
}

/// These boxes come back to these indices, the last first.
pub(crate) fn park_each<C: Controller>(
    slots: &mut [Slot<C>],
    boxes: &mut [Option<C>],
    run: &[u32],
    lent: &mut Vec<C>,
)
    requires { CanParkEach slots.old (map (option_map C.meaning) boxes.old) run.now (map C.meaning lent.old.items) }
    ensures back { AreBack run.now (map C.meaning lent.old.items) slots.old slots.new
        (map (option_map C.meaning) boxes.old) (map (option_map C.meaning) boxes.new) }
    ensures empty { lent.new.items ≡ [] }
    ensures capacity { vec_capacity lent.new ≡ vec_capacity lent.old }
{
    while let Some(ctl) = lent.pop() {
        let index = run[lent.len()] as usize;
        slots[index].park(&mut boxes[index], ctl);
    }
}

/// These boxes, of which none is away, in this room.
pub(crate) fn boxes_of<C: Controller>(boxes: Vec<Option<C>>, room: Vec<C>) -> Vec<C>
    requires home { AllByRecursion (λ box. is_some box ≡ true) (map (option_map C.meaning) boxes.items) }
    requires empty { room.items ≡ [] }
    requires places { length boxes.items ≤ vec_capacity room }
    ensures { map Some (map C.meaning result.items) ≡ map (option_map C.meaning) boxes.items }
{
    let mut all = room;
    for box_slot in boxes {
        match box_slot {
            Some(ctl) => all.push_reserved(ctl),
            None => unreachable!(),
        }
    }
    all
}
