//! What a cycle works on, at home or aloft.

ghost use Rattle.std.specs.Prelude.{◌≡◌, ℕ, ◌<◌, ◌≤◌, ◌==◌, List, [], true, false, not, None, Some, length};
ghost use Rattle.std.specs.Prelude.{map, find, option_map, vec_len, vec_capacity, IfOk, OnOk, IfSome};
ghost use Rattle.cm_document.specs.declared.description.Description.{Description};
ghost use Rattle.cm_model.specs.State.{State, component_lines, interface_lines};
ghost use Rattle.cm_model.specs.declared.member.Member.{Member};
ghost use Rattle.cm_hardware.specs.Holding.{IsHardwareOf, MovesComponent};
ghost use Rattle.cm_hardware.specs.Shown.{HasLinesFor, Shows};
ghost use Rattle.stop_plan.specs.Ending.{HasFlags};
ghost use Rattle.cm_resources.specs.CycleResources.{place_among, IsAtHome, IsAtStart, IsHome, IsListing, IsMadeReady};
ghost use Rattle.cm_resources.specs.CycleResources.{IsRewired, IsPrepared, CanBePrepared, CanBePreparedAtHome};
ghost use Rattle.cm_resources.specs.CycleResources.{CanSendOut, HasSentOut, HasForgotten, HasTakenBack};
ghost use Rattle.cm_resources.specs.CycleNeeds.{AreNeeds};
ghost use Rattle.rt_flight.specs.Flights.{TellsNothing};
ghost use Rattle.cm_resources.specs.Commits.{CanSwitch, HasSwitched, KeepsRest};

use crate::active_set::ActiveSet;
use crate::commits::commit;
use crate::needs::{CycleNeeds, HardwareSize, empty, needs_for, prepare};
use crate::start::context_at_start;
use cm_document::{Checked, Life};
use cm_hardware::{Lists, ResourceManager};
use cm_model::{CompLine, IfaceLine, Member};
use cm_slots::{MailAloft, Room, Slots};
use ctl_trait::Controller;
use fixed_num::Memory;
use hw_component::HwFault;
use request_plan::Switched;
use rt_flight::{CycleContext, Robot, Workspace};
use sequence::Seq;
use std::alloc::Global;
use std::snapshot::Snapshot;
use stop_plan::Ending;

/// What a cycle works on, and what it needs besides. What works in it leaves with it; the rest stays here.
#[derive(Drop)]
pub struct CycleResources {
    /// What works in a cycle; none while one is aloft.
    pub idle_context: Option<Box<CycleContext>>,
    /// The same as it stands here, or as it was when it left. It takes no byte: contracts alone read it.
    pub robot: Snapshot<Robot>,
    pub ending: Snapshot<Ending>,
    /// The mail that is aloft. It takes no byte either.
    pub mails: Snapshot<Vec<MailAloft>>,
    /// Which controllers ran last, as what works in a cycle has it at home. It takes no byte either.
    pub members: Snapshot<Vec<Member>>,
    /// The places of the controllers whose update failed in the cycle that landed last, as what works in a cycle has
    /// them at home. It takes no byte either.
    pub erred: Snapshot<Vec<u32>>,
    /// What cycles left over.
    pub buffers: CycleBuffers,
    /// The lists that are told while a cycle is aloft.
    pub lists: Lists,
    /// Whether they are those of the hardware as it is: a flight writes them down, and what is done to the hardware
    /// here makes them stale.
    pub told: bool,
    /// Room for the lists that the next flight writes down, as it has it at home. It takes no byte either.
    pub next_lists: Snapshot<Lists>,
    /// How much the hardware can have to tell in a cycle.
    pub size: HardwareSize,
    /// Room for what one controller reads when it comes to run.
    pub room: Room,
}

/// What cycles left over, for the next one.
#[derive(Drop)]
pub struct CycleBuffers {
    /// The workspaces of the controllers that ran last; none while a cycle is aloft.
    pub workspaces: Vec<Workspace>,
    /// Workspaces of controllers that do not run, for when they run again.
    pub shelf: Vec<Workspace>,
    /// Room for the mail that goes aloft.
    pub mails: Vec<MailAloft>,
}

impl CycleBuffers {
    /// Nothing is left over.
    pub(crate) fn none(alloc: Global) -> CycleBuffers
        ensures workspaces { result.workspaces.items ≡ [] }
        ensures mails { result.mails.items ≡ [] }
    {
        CycleBuffers {
            workspaces: Vec::new(alloc),
            shelf: Vec::new(alloc),
            mails: Vec::new(alloc),
        }
    }
}

impl CycleResources {
    /// The hardware of a description at start, with what is worked out of it.
    pub(crate) fn make(
        alloc: Global,
        checked: &Checked,
        ending: Ending,
    ) -> Result<CycleResources, Memory>
        requires { HasFlags (length checked.now.controllers) ending }
        ensures { IfOk result (IsAtStart checked.now) }
    {
        let room = Room::make(alloc)?;
        let context = context_at_start(alloc, checked, ending)?;
        let hardware = &context.robot.hardware;
        let lists = hardware.room_for_lists(alloc)?;
        let size = HardwareSize {
            failures: hardware.most_failures(),
            joints: hardware.joints(),
        };
        let buffers = CycleBuffers::none(alloc);
        Ok(CycleResources {
            robot: Snapshot::of(&context.robot),
            ending: Snapshot::of(&context.ending),
            mails: Snapshot::of(&buffers.mails),
            members: Snapshot::of(&context.order),
            erred: Snapshot::of(&context.erred),
            next_lists: Snapshot::of(&context.lists),
            idle_context: Some(context),
            buffers,
            lists,
            told: false,
            size,
            room,
        })
    }

    /// The list of components: of the hardware where it is here, and else as it was written down.
    pub fn component_lines(&self, alloc: Global) -> Result<Seq<CompLine>, Memory>
        requires { IsListing self.now }
        ensures { IfOk result
            (λ lines. (s : State) → IsHardwareOf s self.now.robot.value.hardware → lines ≡ component_lines s) }
    {
        match &self.idle_context {
            Some(idle_context) => idle_context.robot.hardware.component_lines(alloc),
            None => Ok(Seq::from_vec(self.lists.components.clone()?)),
        }
    }

    /// The list of interfaces, likewise.
    #[tactic(auto, using(cm_hardware::proofs::ListLemmas::shown_interfaces))]
    pub fn interface_lines(&self, alloc: Global) -> Result<Seq<IfaceLine>, Memory>
        requires { IsListing self.now }
        ensures { IfOk result
            (λ lines. (s : State) → IsHardwareOf s self.now.robot.value.hardware → lines ≡ interface_lines s) }
    {
        match &self.idle_context {
            Some(idle_context) => idle_context.robot.hardware.interface_lines(alloc),
            None => self.lists.interface_lines(alloc),
        }
    }

    /// A component comes to a lifecycle state, where there is such a move.
    pub fn move_component(&mut self, component: u32, target: Life) -> Result<(), HwFault>
        requires home { IsAtHome self.old }
        requires within { component < length self.old.robot.value.hardware.components }
        ensures moved { (s : State) → IsHardwareOf s self.old.robot.value.hardware
            → MovesComponent s component target self.old.robot.value.hardware self.new.robot.value.hardware result }
        ensures resources { IsRewired self.old self.new }
    {
        let mut idle_context = self.leave();
        let answer = idle_context
            .robot
            .hardware
            .move_component(component, target);
        self.rest(idle_context);
        answer
    }

    /// A set of controllers becomes active, as these sets say. It takes no memory.
    pub fn switch<C: Controller>(
        &mut self,
        slots: &mut Slots<C>,
        active_set: &mut ActiveSet,
        switched: &Switched,
    )
        requires { CanSwitch self.old slots.old active_set.old switched.now }
        ensures committed { HasSwitched self.old self.new slots.old slots.new active_set.old active_set.new
            switched.now }
        ensures resources { IsRewired self.old self.new }
        ensures rest { KeepsRest active_set.old active_set.new self.old.room self.new.room slots.old slots.new }
    {
        let mut idle_context = self.leave();
        let robot = &mut idle_context.robot;
        commit(
            slots,
            &mut robot.hardware,
            &robot.places,
            &mut self.room,
            active_set,
            &switched.chained,
            &switched.stopped,
            &switched.started,
        );
        self.rest(idle_context);
    }

    /// All that a cycle needs in which these controllers are active, of so many that are loaded. What is at home stays
    /// so; the workspaces that are there are used for it, or lost where memory runs out.
    pub fn needs(
        &mut self,
        alloc: Global,
        checked: &Checked,
        order: &[Member],
        loaded: usize,
    ) -> Result<CycleNeeds, Memory>
        requires home { IsAtHome self.old }
        requires can { CanBePrepared checked.now self.old order.now }
        ensures needs { IfOk result (AreNeeds checked.now self.old.robot.value.places order.now loaded) }
        ensures resources { IsMadeReady self.old self.new }
    {
        let mut idle_context = self.leave();
        let workspaces = std::mem::replace(&mut self.buffers.workspaces, Vec::new(alloc));
        let members = std::mem::replace(&mut idle_context.order, Vec::new(alloc));
        let needs = needs_for(
            alloc,
            checked,
            &idle_context.robot.places,
            self.size,
            order,
            loaded,
            workspaces,
            &mut self.buffers.shelf,
            members,
        );
        self.put_back(idle_context);
        needs
    }

    /// These come to their places, and with them all that a cycle needs is ready. It takes no memory.
    pub fn take_in(&mut self, needs: CycleNeeds)
        requires home { IsAtHome self.old }
        requires none_erred { self.old.erred.value.items ≡ [] }
        ensures prepared { (d : Description) (order : List Member) (loaded : ℕ)
            → AreNeeds d self.old.robot.value.places order loaded needs → IsPrepared d order loaded self.new }
        ensures resources { (d : Description) (order : List Member) (loaded : ℕ)
            → AreNeeds d self.old.robot.value.places order loaded needs → IsMadeReady self.old self.new }
    {
        let mut idle_context = self.leave();
        let CycleNeeds {
            workspaces,
            order,
            erred,
            mails,
            room,
        } = needs;
        self.buffers.workspaces = workspaces;
        self.buffers.mails = mails;
        idle_context.order = order;
        idle_context.erred = erred;
        idle_context.room = Some(room);
        self.put_back(idle_context);
    }

    /// All that a cycle needs is made ready in which these controllers are active, of so many that are loaded. What is
    /// at home stays so; of what others left over some may be lost where memory runs out.
    pub fn prepare(
        &mut self,
        alloc: Global,
        checked: &Checked,
        order: &[Member],
        loaded: usize,
    ) -> Result<(), Memory>
        requires { CanBePreparedAtHome checked.now self.old order.now }
        ensures prepared { OnOk result (IsPrepared checked.now order.now loaded self.new) }
        ensures resources { IsMadeReady self.old self.new }
    {
        let mut idle_context = self.leave();
        let answer = prepare(
            alloc,
            checked,
            self.size,
            order,
            loaded,
            &mut self.buffers,
            &mut idle_context,
        );
        self.put_back(idle_context);
        answer
    }

    /// What works in a cycle is at home again, with others in its order of updates.
    fn put_back(&mut self, context: Box<CycleContext>)
        ensures resources { self.new ≡ record self.old { idle_context = Some context; members = self.new.members } }
        ensures members { self.new.members.value ≡ context.value.order }
    {
        self.members = Snapshot::of(&context.order);
        self.idle_context = Some(context);
    }

    /// What works in a cycle is here again, after something was done to its hardware. The lists are told anew before
    /// the next flight.
    fn rest(&mut self, context: Box<CycleContext>)
        ensures resources { self.new ≡ record self.old {
          idle_context = Some context;
          robot = self.new.robot;
          told = false;
        } }
        ensures robot { self.new.robot.value ≡ context.value.robot }
    {
        self.robot = Snapshot::of(&context.robot);
        self.idle_context = Some(context);
        self.told = false;
    }

    /// What works in a cycle leaves for one, with room for its lists; those that are told here meanwhile are the ones
    /// of now. It takes no memory.
    pub fn send_out(&mut self) -> Box<CycleContext>
        requires { CanSendOut self.old }
        ensures { HasSentOut self.old self.new result }
    {
        let context = self.leave();
        show_once(self.told, &context.robot.hardware, &mut self.lists);
        self.told = true;
        context
    }

    /// What worked in a cycle is at home again, with the lists that it wrote down, and no mail is aloft. It takes no
    /// memory.
    pub fn take_back(&mut self, context: Box<CycleContext>)
        requires { IfSome context.value.room TellsNothing }
        ensures { HasTakenBack self.old self.new context.value }
    {
        let mut context = context;
        self.unload(&mut context);
        place_erred(&mut context);
        self.robot = Snapshot::of(&context.robot);
        self.ending = Snapshot::of(&context.ending);
        self.members = Snapshot::of(&context.order);
        self.erred = Snapshot::of(&context.erred);
        self.next_lists = Snapshot::of(&context.lists);
        self.idle_context = Some(context);
        empty(&mut self.buffers.mails);
        self.mails = Snapshot::of(&self.buffers.mails);
    }

    /// The lists that it wrote down are told from now on, which are as the hardware is where nothing failed; those of
    /// before are room for the next.
    fn unload(&mut self, context: &mut CycleContext)
        ensures resources { self.new
            ≡ record self.old { lists = context.old.lists; told = not context.old.has_failed } }
        ensures context { context.new ≡ record context.old { lists = self.old.lists } }
    {
        std::mem::swap(&mut self.lists, &mut context.lists);
        self.told = !context.has_failed;
    }

    /// The places of the controllers whose update failed in the cycle that landed last.
    pub fn erred(&self) -> &[u32]
        requires { IsAtHome self.now }
        ensures { result.now ≡ self.now.erred.value.items }
    {
        match &self.idle_context {
            Some(idle_context) => idle_context.erred.as_slice(),
            None => unreachable!(),
        }
    }

    /// Nobody stands in for them any more. It takes no memory.
    pub fn forget_erred(&mut self)
        requires { IsAtHome self.old }
        ensures { HasForgotten self.old self.new }
    {
        let mut idle_context = self.leave();
        empty(&mut idle_context.erred);
        self.erred = Snapshot::of(&idle_context.erred);
        self.idle_context = Some(idle_context);
    }

    /// What works in a cycle leaves its place.
    pub(crate) fn leave(&mut self) -> Box<CycleContext>
        requires { IsAtHome self.old }
        ensures left { IsHome self.old.robot.value self.old.ending.value self.old.members.value.items
            self.old.erred.value.items self.old.next_lists.value result }
        ensures idle_context { self.old.idle_context ≡ Some result }
        ensures resources { self.new ≡ record self.old { idle_context = None } }
    {
        match self.idle_context.take() {
            Some(idle_context) => idle_context,
            None => unreachable!(),
        }
    }
}

/// The serials of those whose update failed become their places in the description. It takes no memory.
fn place_erred(context: &mut CycleContext)
    ensures context { context.new ≡ record context.old { erred = context.new.erred } }
    ensures erred { context.new.erred.items ≡ map (place_among context.old.order.items) context.old.erred.items }
{
    tell_places(context.erred.as_mut_slice(), context.order.as_slice());
}

/// Each of these serials becomes the place of the controller that has it among these.
fn tell_places(serials: &mut [u32], members: &[Member])
    ensures { serials.new ≡ map (place_among members.now) serials.old }
{
    for serial in serials.iter_mut() {
        *serial = place_among(members, *serial);
    }
}

/// The place of the controller of this serial among these, and 0 if none of them has it.
fn place_among(members: &[Member], serial: u32) -> u32
    ensures { result ≡ place_among members.now serial }
{
    place_of(members, serial).unwrap_or(0)
}

/// The place of the controller of this serial, if it is among these.
fn place_of(members: &[Member], serial: u32) -> Option<u32>
    ensures { result ≡ option_map (λ m. m.place) (find (λ m. m.serial == serial) members.now) }
{
    let member = members.iter().find(|member| member.serial == serial)?;
    Some(member.place)
}

/// The lists are those of this hardware: they are told, where they are not yet. It takes no memory.
fn show_once(told: bool, hardware: &ResourceManager, lists: &mut Lists)
    requires lines { HasLinesFor hardware.now lists.old }
    requires told { told ≡ true → Shows hardware.now lists.old }
    ensures shown { Shows hardware.now lists.new }
    ensures room { (vec_capacity lists.new.components ≡ vec_capacity lists.old.components)
        × (vec_len lists.new.loans ≡ vec_len lists.old.loans) }
{
    if !told {
        hardware.show(lists);
    }
}
