//! The loaded controllers, in their slots.

ghost use Rattle.std.specs.Prelude.{◌≡◌, ◌<◌, ◌≤◌, ◌+◌, ◌++◌, ◌∷◌, [], ◌↔◌, true, false};
ghost use Rattle.std.specs.Prelude.{length, map, filter_map, slice_get, slice_set, None, Some};
ghost use Rattle.std.specs.Prelude.{Err, OnOk, OnErr, IsSomeAnd, vec_len, vec_capacity};
ghost use Rattle.std.specs.List.{AllByRecursion, remove};
ghost use Rattle.cm_document.specs.Valid.{IsValid};
ghost use Rattle.cm_model.specs.Commit.{commit};
ghost use Rattle.cm_model.specs.Console.{after_cleanup, after_rate, after_send};
ghost use Rattle.cm_model.specs.Controllers.{configured, is_ready, IsBlank, IsIdle, CanBeConfigured};
ghost use Rattle.cm_model.specs.Cycle.{mail_off, without_mail_off};
ghost use Rattle.cm_model.specs.Kinds.{is_refused};
ghost use Rattle.cm_model.specs.Order.{Places};
ghost use Rattle.cm_model.specs.State.{State, Loaded, is_active};
ghost use Rattle.cm_places.specs.Placed.{placed_of};
ghost use Rattle.cm_slots.specs.Calls.Commits.{CanCommit};
ghost use Rattle.cm_slots.specs.Calls.Slots.{CanLend, HasLent, CanPark, HasParked};
ghost use Rattle.cm_slots.specs.Commits.{TellCommit};
ghost use Rattle.cm_slots.specs.Connections.{IsShownOn};
ghost use Rattle.cm_slots.specs.Updates.{HasTime};

use crate::commits::commit_each;
use crate::lent::{boxes_of, lend_each, park_each};
use crate::mails::{MailAloft, send_each, some_mail_waits};
use crate::room::Room;
use crate::slot::Slot;
use chain_order::PlaceSet;
use cm_document::{Mail, Params};
use cm_hardware::ResourceManager;
use cm_places::CtlPlaces;
use ctl_trait::{CfgFault, Controller};
use fixed_num::Memory;
use std::alloc::Global;
use std::marker::Model;

/// The loaded controllers, by serial, and their boxes. While a cycle is aloft the boxes of those that run are away with
/// it, and all others stand here. Contracts see it as `Slotted`.
#[derive(Drop)]
pub struct Slots<C: Controller> {
    slots: Vec<Slot<C>>,
    /// Those of the slots, in their order; none where a box is away.
    boxes: Vec<Option<C>>,
    /// Whether a cycle is aloft, and with it the boxes of those that run.
    aloft: bool,
    /// Whether mail may wait for some of them. Where none waits a begin looks at none.
    mail_waits: bool,
}

impl<C: Controller> Model for Slots<C> {
    ghost use Rattle.std.specs.Prelude.{◌≡◌, ◌&&◌, map, option_map, nat_lt, vec_len, vec_capacity};
    ghost use Rattle.std.specs.List.{AllByRecursion};
    ghost use Rattle.cm_slots.specs.Mails.{WaitsAsTold};
    ghost use Rattle.cm_slots.specs.Slots.{Slotted, box_of};

    ghost Value = { Slotted };

    ghost view = { λ s. record {
      loaded = s.slots.items;
      aloft = s.aloft;
      has_room = nat_lt (vec_len s.slots) (vec_capacity s.slots) && nat_lt (vec_len s.boxes) (vec_capacity s.boxes);
    } };

    ghost invariant = { λ s. (map (option_map C.meaning) s.boxes.items ≡ map (box_of s.aloft) s.slots.items)
        × AllByRecursion (WaitsAsTold s.mail_waits) s.slots.items };
}

impl<C: Controller> Slots<C> {
    /// Nothing is loaded.
    pub fn none(alloc: Global) -> Slots<C>
        ensures { result ≡ record { loaded = []; aloft = false; has_room = result.has_room } }
    {
        Slots {
            slots: Vec::new(alloc),
            boxes: Vec::new(alloc),
            aloft: false,
            mail_waits: false,
        }
    }

    /// What is kept of the loaded controllers, by serial.
    pub fn as_slice(&self) -> &[Slot<C>]
        ensures { result.now ≡ self.now.loaded }
    {
        self.slots.as_slice()
    }

    /// How many are loaded.
    pub fn len(&self) -> usize
        ensures { result ≡ length self.now.loaded }
    {
        self.slots.len()
    }

    /// There is room for one more.
    pub fn reserve(&mut self) -> Result<(), Memory>
        ensures room { OnOk result (self.new.has_room ≡ true) }
        ensures same { (self.new.loaded ≡ self.old.loaded) × (self.new.aloft ≡ self.old.aloft) }
    {
        self.slots.reserve(1)?;
        self.boxes.reserve(1)?;
        Ok(())
    }

    /// A blank is loaded under a serial, described at this place with this rate. It takes no memory.
    pub fn load(&mut self, serial: u32, place: usize, rate: u32, blank: C)
        requires blank { IsBlank (C.meaning blank) }
        requires room { self.old.has_room ≡ true }
        ensures { self.new ≡ record self.old {
          loaded = self.old.loaded ++ record {
            serial = serial;
            place = place;
            rate = rate;
            divisor = None;
            ctl = C.meaning blank;
            mail = None;
          } ∷ [];
          has_room = self.new.has_room;
        } }
    {
        let slot = Slot::new(serial, place, rate, &blank);
        self.slots.push_reserved(slot);
        self.boxes.push_reserved(Some(blank));
    }

    /// The controller at this index gets these parameters, of its kind, in place of those that it has, and is updated
    /// once in so many cycles. It refuses exactly where they say so; with any fault all stays as it was.
    pub fn configure(
        &mut self,
        index: usize,
        alloc: Global,
        params: &Params,
        divisor: u32,
    ) -> Result<(), CfgFault>
        requires { IsSomeAnd (slice_get self.old.loaded index) (λ l. CanBeConfigured l.ctl params.now) }
        ensures configured { (l : Loaded) → slice_get self.old.loaded index ≡ Some l
            → OnOk result (self.new ≡ record self.old {
              loaded = slice_set self.old.loaded index
                  (record l { ctl = configured l.ctl params.now; divisor = Some divisor });
            }) }
        ensures refused { (result ≡ Err CfgFault.Refused) ↔ (is_refused params.now ≡ true) }
        ensures unchanged { OnErr result (self.new ≡ self.old) }
    {
        self.slots[index].configure(&mut self.boxes[index], alloc, params, divisor)
    }

    /// The controller at this index gives up its parameters. It takes no memory.
    pub fn cleanup(&mut self, index: usize)
        requires { IsSomeAnd (slice_get self.old.loaded index) (λ l. IsIdle l.ctl) }
        ensures { (l : Loaded) → slice_get self.old.loaded index ≡ Some l
            → self.new ≡ record self.old { loaded = slice_set self.old.loaded index (after_cleanup l) } }
    {
        self.slots[index].cleanup(&mut self.boxes[index]);
    }

    /// The controller at this index is not loaded any more, and its box moves out. It takes no memory.
    pub fn unload(&mut self, index: usize) -> C
        requires { IsSomeAnd (slice_get self.old.loaded index) (λ l. is_active l ≡ false) }
        ensures unloaded { self.new ≡ record self.old {
          loaded = remove self.old.loaded index;
          has_room = self.new.has_room;
        } }
        ensures given { (l : Loaded) → slice_get self.old.loaded index ≡ Some l → C.meaning result ≡ l.ctl }
    {
        let slot = self.slots.remove(index);
        slot.into_ctl(self.boxes.remove(index))
    }

    /// The controller at this index gets this rate in hertz, which counts at its next configure. It takes no memory.
    pub fn set_rate(&mut self, index: usize, hz: u32)
        requires { index < length self.old.loaded }
        ensures { (l : Loaded) → slice_get self.old.loaded index ≡ Some l
            → self.new ≡ record self.old { loaded = slice_set self.old.loaded index (after_rate hz l) } }
    {
        self.slots[index].set_rate(hz);
    }

    /// This mail waits for the controller at this index, in place of any other. It takes no memory.
    pub fn post(&mut self, index: usize, mail: Mail)
        requires { index < length self.old.loaded }
        ensures { (l : Loaded) → slice_get self.old.loaded index ≡ Some l
            → self.new ≡ record self.old { loaded = slice_set self.old.loaded index (after_send mail l) } }
    {
        self.slots[index].post(mail);
        self.mail_waits = true;
    }

    /// Whether the controller at this index may be activated before this cycle. No box is away.
    pub fn is_ready(&self, index: usize, cycle: u64) -> bool
        requires home { self.now.aloft ≡ false }
        requires within { index < length self.now.loaded }
        ensures { (l : Loaded) → slice_get self.now.loaded index ≡ Some l → result ≡ is_ready l.ctl cycle }
    {
        self.slots[index].is_ready(&self.boxes[index], cycle)
    }

    /// A set of controllers becomes active: those that are stopped are deactivated, and those that are started
    /// activated, with the states of this moment and chained as these flags say; one that is both restarts. Their mail
    /// is emptied, and all others stay as they are. It takes no memory.
    pub fn commit(
        &mut self,
        hardware: &ResourceManager,
        places: &CtlPlaces,
        room: &mut Room,
        chained: &PlaceSet,
        stopped: &PlaceSet,
        started: &PlaceSet,
    )
        requires { CanCommit self.old places.now (length hardware.now.loans) room.old }
        ensures committed { (s : State) (set again : Places) → IsValid s.description
            → places.now ≡ placed_of s.description → IsShownOn hardware.now.loans s.description s.values
            → self.old.loaded ≡ s.loaded → TellCommit s set again chained.now stopped.now started.now
            → self.new.loaded ≡ (commit s set again).loaded }
        ensures home { self.new ≡ record self.old { loaded = self.new.loaded } }
        ensures room { room.new ≡ room.old }
    {
        commit_each(
            &mut self.slots,
            &mut self.boxes,
            hardware,
            places,
            room,
            chained,
            stopped,
            started,
        );
    }

    /// The cycle of this number begins: the mail of each active controller that is due in it goes aloft. There is room
    /// for it: the call takes no memory.
    pub fn send_off(&mut self, cycle: u64, mails: &mut Vec<MailAloft>)
        requires room { vec_len mails.old + length self.old.loaded ≤ vec_capacity mails.old }
        requires time { AllByRecursion HasTime self.old.loaded }
        ensures slots { (s : State) → s.ended ≡ cycle
            → self.new ≡ record self.old { loaded = map (without_mail_off s) self.old.loaded } }
        ensures mails { (s : State) → s.ended ≡ cycle
            → mails.new.items ≡ mails.old.items ++ filter_map (mail_off s) self.old.loaded }
    {
        // A begin costs nothing for controllers that are loaded, while no mail waits for any.
        if self.mail_waits {
            send_each(&mut self.slots, cycle, mails);
            self.mail_waits = some_mail_waits(&self.slots);
        }
    }

    /// A cycle takes off: the boxes of the controllers that run are lent for it, which stand at these indices in the
    /// order of updates. It takes no memory.
    pub fn lend(&mut self, run: &[u32], boxes: &mut Vec<C>)
        requires { CanLend self.old run.now (map C.meaning boxes.old.items) (vec_capacity boxes.old) }
        ensures lent { HasLent self.old self.new run.now (map C.meaning boxes.new.items) }
        ensures capacity { vec_capacity boxes.new ≡ vec_capacity boxes.old }
    {
        lend_each(&self.slots, &mut self.boxes, run, boxes);
        self.aloft = true;
    }

    /// The cycle has come home: the boxes that were lent for it stand in their slots again, at these indices. It takes
    /// no memory.
    pub fn park(&mut self, run: &[u32], boxes: &mut Vec<C>)
        requires { CanPark self.old run.now (map C.meaning boxes.old.items) }
        ensures parked { HasParked self.old self.new run.now (map C.meaning boxes.old.items) }
        ensures empty { boxes.new.items ≡ [] }
        ensures capacity { vec_capacity boxes.new ≡ vec_capacity boxes.old }
    {
        park_each(&mut self.slots, &mut self.boxes, run, boxes);
        self.aloft = false;
    }

    /// The boxes of the loaded controllers, by serial, in this room. No box is away. It takes no memory.
    pub fn into_boxes(self, room: Vec<C>) -> Vec<C>
        requires home { self.aloft ≡ false }
        requires empty { room.items ≡ [] }
        requires places { length self.loaded ≤ vec_capacity room }
        ensures { map C.meaning result.items ≡ map (λ l. l.ctl) self.loaded }
    {
        boxes_of(self.boxes, room)
    }
}
