//! The memory that a cycle takes when it goes aloft.

ghost use Rattle.std.specs.Prelude.{◌≡◌, ◌+◌, ◌≤◌, ◌<◌, [], true, length, sum_by, vec_len};
ghost use Rattle.std.specs.Prelude.{vec_capacity, IfOk, OnOk, IfSome, IsSomeAnd, All};
ghost use Rattle.cm_places.specs.Placed.{placed_of};
ghost use Rattle.rt_flight.specs.Flights.{TellsNothing};
ghost use Rattle.rt_flight.specs.Workspaces.{HasRows, IsFitted};
ghost use Rattle.cm_resources.specs.CycleNeeds.{AreKept, AreWorkspacesFor, AreWorkspaces, AreNeeds, CanPrepare};
ghost use Rattle.cm_resources.specs.CycleNeeds.{CanPrepareFrom, HasRoom, HasRoomOf, HaveNeeds, IsRefitted};
ghost use Rattle.cm_resources.specs.CycleNeeds.{IsRun, IsSizeOf, IsWorkspaceFor, outs_at, numbers_at};

use crate::described::described_at;
use crate::resources::CycleBuffers;
use cm_document::Checked;
use cm_model::Member;
use cm_places::CtlPlaces;
use cm_slots::MailAloft;
use cm_storage::{CycleParts, RecordRoom, RecordSize, Standing};
use ctl_trait::publishes;
use fixed_num::Memory;
use rt_flight::{CycleContext, Workspace};
use std::alloc::Global;

/// All that a cycle takes along, or works on, but for the hardware and the boxes.
#[derive(Drop)]
pub struct CycleNeeds {
    /// The workspaces of the controllers that run, in the order of updates.
    pub workspaces: Vec<Workspace>,
    /// Which controllers run.
    pub order: Vec<Member>,
    /// Room for the serials of those whose update fails.
    pub erred: Vec<u32>,
    /// Room for the mail that goes aloft.
    pub mails: Vec<MailAloft>,
    /// Its record, with room for all that it can tell.
    pub room: RecordRoom,
}

/// How much hardware can have to tell in a cycle. It stays as it is described.
#[derive(Clone, Copy, Debug)]
pub struct HardwareSize {
    /// How many of its reads and writes can fail.
    pub failures: usize,
    /// How many joints it has.
    pub joints: usize,
}

/// What a cycle takes in which these controllers are active, of so many that are loaded: these workspaces where they
/// are theirs, and else those on the shelf that are, and new ones.
pub(crate) fn needs_for(
    alloc: Global,
    checked: &Checked,
    places: &CtlPlaces,
    size: HardwareSize,
    order: &[Member],
    loaded: usize,
    workspaces: Vec<Workspace>,
    shelf: &mut Vec<Workspace>,
    members: Vec<Member>,
) -> Result<CycleNeeds, Memory>
    requires robot { CanPrepare checked.now places.now size order.now }
    requires kept { AreKept places.now workspaces.items members.items }
    ensures { IfOk result (AreNeeds checked.now places.now order.now loaded) }
{
    let mut workspaces = workspaces;
    let mut members = members;
    fit_workspaces(alloc, places, order, &mut workspaces, shelf, &mut members)?;
    Ok(CycleNeeds {
        workspaces,
        order: members,
        erred: Vec::with_capacity(alloc, order.len())?,
        mails: Vec::with_capacity(alloc, loaded)?,
        room: record_for(alloc, checked, places, size, order, None)?,
    })
}

/// These once more.
fn copy_of(alloc: Global, members: &[Member]) -> Result<Vec<Member>, Memory>
    ensures { IfOk result (λ copy. copy.items ≡ members.now) }
{
    let mut copy = Vec::with_capacity(alloc, members.len())?;
    copy.extend_from_slice(members)?;
    Ok(copy)
}

/// All that a cycle needs is made ready in which these controllers are active, of so many that are loaded: their
/// workspaces, and in what works in the cycle who they are and room to tell of it. What others left over is used again.
pub(crate) fn prepare(
    alloc: Global,
    checked: &Checked,
    size: HardwareSize,
    order: &[Member],
    loaded: usize,
    buffers: &mut CycleBuffers,
    context: &mut CycleContext,
) -> Result<(), Memory>
    requires { CanPrepareFrom checked.now size order.now buffers.old context.old }
    ensures prepared { OnOk result
        (HaveNeeds checked.now context.old.robot.places order.now loaded buffers.new context.new) }
    ensures kept { AreKept context.old.robot.places buffers.new.workspaces.items context.new.order.items }
    ensures context { IsRefitted context.old context.new }
{
    fit_workspaces(
        alloc,
        &context.robot.places,
        order,
        &mut buffers.workspaces,
        &mut buffers.shelf,
        &mut context.order,
    )?;
    context.erred.reserve(order.len())?;
    make_room(&mut buffers.mails, loaded)?;
    ready_standing(alloc, size, order, &mut context.standing)?;
    renew_room(
        alloc,
        checked,
        &context.robot.places,
        size,
        order,
        &mut context.room,
        &mut context.left_over,
    )
}

/// The workspaces are those of these controllers, and it is known who they are. If the same ran last, they are those
/// that are there.
fn fit_workspaces(
    alloc: Global,
    places: &CtlPlaces,
    order: &[Member],
    workspaces: &mut Vec<Workspace>,
    shelf: &mut Vec<Workspace>,
    members: &mut Vec<Member>,
) -> Result<(), Memory>
    requires rows { All (λ m. HasRows places.now m.place) order.now }
    requires kept { AreKept places.now workspaces.old.items members.old.items }
    ensures run { OnOk result (IsRun places.now order.now workspaces.new.items members.new.items) }
    ensures kept { AreKept places.now workspaces.new.items members.new.items }
{
    if are_workspaces_of(workspaces, order) {
        return Ok(());
    }
    renew_workspaces(alloc, places, order, workspaces, shelf, members)
}

/// The workspaces are others, of these controllers, and it is known who they are. Those that were there are put on the
/// shelf. It stands apart, because few cycles need it.
#[inline(never)]
fn renew_workspaces(
    alloc: Global,
    places: &CtlPlaces,
    order: &[Member],
    workspaces: &mut Vec<Workspace>,
    shelf: &mut Vec<Workspace>,
    members: &mut Vec<Member>,
) -> Result<(), Memory>
    requires rows { All (λ m. HasRows places.now m.place) order.now }
    requires kept { AreKept places.now workspaces.old.items members.old.items }
    ensures run { OnOk result (IsRun places.now order.now workspaces.new.items members.new.items) }
    ensures kept { AreKept places.now workspaces.new.items members.new.items }
{
    shelf.reserve(workspaces.len())?;
    put_away(shelf, workspaces);
    members.clear();
    let others = workspaces_for(alloc, places, order, shelf)?;
    let who = copy_of(alloc, order)?;
    *workspaces = others;
    *members = who;
    Ok(())
}

/// Workspaces come to the shelf, the first one last: it is looked for from its end. There is room: the call takes no
/// memory.
fn put_away(shelf: &mut Vec<Workspace>, workspaces: &mut Vec<Workspace>)
    requires { vec_len shelf.old + vec_len workspaces.old ≤ vec_capacity shelf.old }
    ensures { workspaces.new.items ≡ [] }
{
    while let Some(workspace) = workspaces.pop() {
        shelf.push_reserved(workspace);
    }
}

/// Workspaces for these controllers: those of the shelf that are theirs, and else new ones.
fn workspaces_for(
    alloc: Global,
    places: &CtlPlaces,
    order: &[Member],
    shelf: &mut Vec<Workspace>,
) -> Result<Vec<Workspace>, Memory>
    requires { All (λ m. HasRows places.now m.place) order.now }
    ensures { IfOk result (λ all. AreWorkspaces places.now order.now all.items) }
{
    let mut workspaces = Vec::with_capacity(alloc, order.len())?;
    for member in order {
        workspaces.push(workspace_for(alloc, places, *member, shelf)?)?;
    }
    Ok(workspaces)
}

/// The workspace of this controller: one of the shelf that was at its place, and else a new one.
#[tactic(auto, using(rt_flight::proofs::FitLemmas::fitted_from))]
fn workspace_for(
    alloc: Global,
    places: &CtlPlaces,
    member: Member,
    shelf: &mut Vec<Workspace>,
) -> Result<Workspace, Memory>
    requires { HasRows places.now member.place }
    ensures stands { IfOk result (IsWorkspaceFor member) }
    ensures fitted { IfOk result (IsFitted places.now) }
{
    if let Some(kept) = taken(shelf, member.place) {
        if kept.place() == member.place && kept.is_fitted(places) {
            return Ok(kept.renumbered(member.serial));
        }
    }
    Workspace::make(alloc, member, 1, places)
}

/// The last workspace of the shelf that was at this place, taken from it.
fn taken(shelf: &mut Vec<Workspace>, place: u32) -> Option<Workspace> {
    let index = last_at(shelf, place)?;
    Some(shelf.swap_remove(index))
}

/// Where the last workspace stands that was at this place.
fn last_at(shelf: &[Workspace], place: u32) -> Option<usize>
    ensures { IfSome result (λ index. index < length shelf.now) }
{
    let mut index = shelf.len();
    while index > 0 {
        index -= 1;
        if shelf[index].place() == place {
            return Some(index);
        }
    }
    None
}

/// Whether these are the workspaces of these controllers.
fn are_workspaces_of(workspaces: &[Workspace], order: &[Member]) -> bool
    ensures { result ≡ true → AreWorkspacesFor order.now workspaces.now }
{
    if workspaces.len() != order.len() {
        return false;
    }
    for i in 0..order.len() {
        if !is_workspace_of(&workspaces[i], order[i]) {
            return false;
        }
    }
    true
}

/// Whether this is the workspace of this controller.
fn is_workspace_of(workspace: &Workspace, member: Member) -> bool
    ensures { result ≡ true → IsWorkspaceFor member workspace.now }
{
    workspace.serial() == member.serial && workspace.place() == member.place
}

/// Nothing stands in the list any more.
pub fn empty<T: Drop>(list: &mut Vec<T>)
    ensures items { list.new.items ≡ [] }
    ensures capacity { vec_capacity list.new ≡ vec_capacity list.old }
{
    if !list.is_empty() {
        list.clear();
    }
}

/// Nothing stands in the list any more, and it has room for so many.
fn make_room<T: Drop>(list: &mut Vec<T>, count: usize) -> Result<(), Memory>
    ensures { OnOk result ((list.new.items ≡ []) × (count ≤ vec_capacity list.new)) }
{
    empty(list);
    list.reserve(count)?;
    Ok(())
}

/// If no controller is active, a list of the bodies is ready for the record, in case that they stand.
fn ready_standing(
    alloc: Global,
    size: HardwareSize,
    order: &[Member],
    standing: &mut Standing,
) -> Result<(), Memory> {
    if order.is_empty() && size.joints > 0 {
        standing.prepare(alloc, size.joints)?;
    }
    Ok(())
}

/// There is room to tell of a cycle of hardware of this size in which these controllers are active: that of the cycle
/// before, if none is active and it is there still, and else new room.
#[tactic(auto, using(crate::proofs::NeedsLemmas::room_stays))]
fn renew_room(
    alloc: Global,
    checked: &Checked,
    places: &CtlPlaces,
    size: HardwareSize,
    order: &[Member],
    room: &mut Option<RecordRoom>,
    left_over: &mut Option<Box<CycleParts>>,
) -> Result<(), Memory>
    requires can { CanPrepare checked.now places.now size order.now }
    requires told { IfSome room.old TellsNothing }
    ensures room { OnOk result (IsSomeAnd room.new (HasRoom checked.now places.now order.now)) }
    ensures told { IfSome room.new TellsNothing }
{
    if order.is_empty() && has_room(size, room) {
        return Ok(());
    }
    make_record(alloc, checked, places, size, order, room, left_over)
}

/// There is new room to tell of a cycle of hardware of this size in which these controllers are active. It stands
/// apart, because each begin would else clear the memory that this works on.
#[inline(never)]
fn make_record(
    alloc: Global,
    checked: &Checked,
    places: &CtlPlaces,
    size: HardwareSize,
    order: &[Member],
    room: &mut Option<RecordRoom>,
    left_over: &mut Option<Box<CycleParts>>,
) -> Result<(), Memory>
    requires can { CanPrepare checked.now places.now size order.now }
    requires told { IfSome room.old TellsNothing }
    ensures room { OnOk result (IsSomeAnd room.new (HasRoom checked.now places.now order.now)) }
    ensures told { IfSome room.new TellsNothing }
{
    let made = record_for(alloc, checked, places, size, order, left_over.take())?;
    *room = Some(made);
    Ok(())
}

/// Whether there is room for all that hardware of this size can tell.
fn has_room(size: HardwareSize, room: &Option<RecordRoom>) -> bool
    ensures { result ≡ true → IsSomeAnd room.now (HasRoomOf size) }
{
    match room {
        Some(room) => { size.failures <= room.failed.room() && size.joints <= room.bodies.room() }
        None => false,
    }
}

/// A record for a cycle of hardware of this size in which these controllers are active, with room for all that it can
/// tell. Its parts come to stand in the place that another cycle left over, where there is one.
fn record_for(
    alloc: Global,
    checked: &Checked,
    places: &CtlPlaces,
    size: HardwareSize,
    order: &[Member],
    left_over: Option<Box<CycleParts>>,
) -> Result<RecordRoom, Memory>
    requires places { places.now ≡ placed_of checked.now }
    requires size { IsSizeOf checked.now size }
    requires within { All (λ m. m.place < length checked.now.controllers) order.now }
    ensures { IfOk result (HasRoom checked.now places.now order.now) }
{
    let size = RecordSize {
        failed: size.failures,
        ran: order.len(),
        values: count_values(places, order)?,
        numbers: count_numbers(checked, places, order)?,
        bodies: size.joints,
        stops: order.len(),
    };
    Ok(RecordRoom::with_room(alloc, size, left_over)?)
}

/// How many values these controllers give out together.
fn count_values(places: &CtlPlaces, order: &[Member]) -> Result<usize, Memory>
    requires { All (λ m. m.place < length places.now.claims) order.now }
    ensures { IfOk result (λ count. count ≡ sum_by (outs_at places.now) order.now) }
{
    let mut count = 0;
    for member in order {
        count = sum(count, places.claims(member.place).len())?;
    }
    Ok(count)
}

/// How many numbers they publish together.
fn count_numbers(checked: &Checked, places: &CtlPlaces, order: &[Member]) -> Result<usize, Memory>
    requires within { All (λ m. m.place < length checked.now.controllers) order.now }
    requires places { length places.now.reads ≡ length checked.now.controllers }
    ensures { IfOk result (λ count. count ≡ sum_by (numbers_at checked.now places.now) order.now) }
{
    let mut count = 0;
    for member in order {
        count = sum(count, numbers_of(checked, places, member))?;
    }
    Ok(count)
}

/// How many numbers one of them publishes.
fn numbers_of(checked: &Checked, places: &CtlPlaces, member: &Member) -> usize
    requires within { member.now.place < length checked.now.controllers }
    requires places { length places.now.reads ≡ length checked.now.controllers }
    ensures { result ≡ numbers_at checked.now places.now member.now }
{
    if publishes(described_at(checked, member.place as usize).params.kind()) {
        places.reads(member.place).len()
    } else {
        0
    }
}

/// Two numbers together. Of more than memory could hold there is no room.
fn sum(count: usize, more: usize) -> Result<usize, Memory>
    ensures { IfOk result (λ all. all ≡ count + more) }
{
    match count.checked_add(more) {
        Some(all) => Ok(all),
        None => Err(Memory),
    }
}
