//! What stands while a history is read: who is loaded and in which lifecycle state, and what was asked.

use crate::links::{ControllerLinks, Link, Linked, component_place, controller_place};
use cm_document::{Call, CtlDesc, Description, Life, Script, SessionText};
use cm_model::Reply;
use cm_storage::FailedPart;
use fixed_num::Memory;
use iface_names::Name;
use std::alloc::Global;
use std::mem;

/// A call as a session makes it.
#[derive(Clone, Copy)]
pub struct Asked<'a> {
    /// The session's name.
    pub who: &'a Name,
    /// The call.
    pub call: &'a Call,
}

/// What stands while a history is read.
#[derive(Drop)]
pub struct Present<'a> {
    /// The description of the run.
    pub description: &'a Description,
    /// What each controller claims and reads, by place.
    pub links: &'a [ControllerLinks],
    /// The lifecycle state of each controller that is loaded, by place.
    lives: Vec<Option<Life>>,
    /// Whether each is chained, by place.
    chained: Vec<bool>,
    /// Those whose update failed in the cycle that ended last, and who have fallbacks, in the order of their updates.
    erred: Vec<&'a CtlDesc>,
    /// The lifecycle state of each component, by place.
    pub components: Vec<Life>,
    /// How many cycles have ended.
    pub ended: u64,
    sessions: &'a [SessionText],
    /// How many of its lines each session has made.
    made: Vec<usize>,
    /// The place of each controller that was loaded, by serial.
    places: Vec<usize>,
    /// What was asked, by ticket.
    asked: Vec<Option<Asked<'a>>>,
}

impl<'a> Present<'a> {
    /// Before the first entry.
    pub fn at_start(
        alloc: Global,
        linked: Linked<'a>,
        script: &'a Script,
    ) -> Result<Present<'a>, Memory> {
        let Linked {
            description,
            links,
            ..
        } = linked;
        let sessions = script.sessions.as_slice();
        Ok(Present {
            description,
            links,
            lives: vec![in alloc; None; links.len()]?,
            chained: vec![in alloc; false; links.len()]?,
            erred: Vec::new(alloc),
            components: initial(alloc, description)?,
            ended: 0,
            sessions,
            made: vec![in alloc; 0; sessions.len()]?,
            places: Vec::new(alloc),
            asked: Vec::new(alloc),
        })
    }

    /// A session made its next line, with this reply. Gives that line.
    pub fn called(&mut self, who: u32, reply: &Reply) -> Result<Option<Asked<'a>>, Memory> {
        let Some(asked) = self.next_line(who) else {
            return Ok(None);
        };
        match (asked.call, reply) {
            (Call::Load(name), Reply::Serial(_)) => self.load(name)?,
            (_, Reply::Queued(_)) => self.asked.push(Some(asked))?,
            (Call::Configure(name), Reply::Done) => self.live(name, Some(Life::Inactive)),
            (Call::Cleanup(name), Reply::Done) => self.live(name, Some(Life::Unconfigured)),
            (Call::Unload(name), Reply::Done) => self.live(name, None),
            _ => {}
        }
        Ok(Some(asked))
    }

    /// The line that a session makes now.
    fn next_line(&mut self, who: u32) -> Option<Asked<'a>> {
        let session = self.sessions.get(who as usize)?;
        let made = self.made.get_mut(who as usize)?;
        let call = session.lines.as_slice().get(one_more(made))?;
        Some(Asked {
            who: &session.name,
            call,
        })
    }

    /// A controller is loaded under the next serial.
    fn load(&mut self, name: &Name) -> Result<(), Memory> {
        if let Some(place) = self.controller(name) {
            self.places.push(place)?;
        }
        self.live(name, Some(Life::Unconfigured));
        Ok(())
    }

    fn controller(&self, name: &Name) -> Option<usize> {
        controller_place(self.description.controllers.as_slice(), name)
    }

    /// A controller is loaded in this lifecycle state, or not any more.
    fn live(&mut self, name: &Name, life: Option<Life>) {
        if let Some(place) = self.controller(name) {
            if let Some(own) = self.lives.get_mut(place) {
                *own = life;
            }
        }
    }

    /// The lifecycle state of the controller at this place, where it is loaded.
    pub fn life_at(&self, place: usize) -> Option<Life> {
        *self.lives.get(place)?
    }

    /// Whether the controller at this place is chained.
    pub fn is_chained(&self, place: usize) -> bool {
        self.chained.get(place).copied().unwrap_or(false)
    }

    /// What was asked under a ticket.
    pub fn asked_under(&self, ticket: u32) -> Option<Asked<'a>> {
        *self.asked.get(ticket as usize)?
    }

    /// The place of the controller with this serial.
    pub fn place_of(&self, serial: u32) -> Option<usize> {
        self.places.get(serial as usize).copied()
    }

    /// The controller with this serial, as described.
    pub fn controller_of(&self, serial: u32) -> Option<&'a CtlDesc> {
        let place = self.place_of(serial)?;
        self.description.controllers.as_slice().get(place)
    }

    /// What the controller with this serial claims and reads.
    pub fn links_of(&self, serial: u32) -> Option<&'a ControllerLinks> {
        self.links.get(self.place_of(serial)?)
    }

    /// The name of the controller at this place.
    pub fn name_at(&self, place: Option<usize>) -> Option<&'a Name> {
        let controller = self.description.controllers.as_slice().get(place?)?;
        Some(&controller.name)
    }

    /// An inactive controller becomes active.
    pub fn start(&mut self, name: &Name) {
        if let Some(place) = self.controller(name) {
            if let Some(life) = self.lives.get_mut(place) {
                if *life == Some(Life::Inactive) {
                    *life = Some(Life::Active);
                }
            }
        }
    }

    /// An active controller becomes inactive.
    pub fn stop(&mut self, place: usize) {
        if let Some(life) = self.lives.get_mut(place) {
            if *life == Some(Life::Active) {
                *life = Some(Life::Inactive);
            }
        }
    }

    /// The update of the controller at this place failed.
    pub fn note_erred(&mut self, place: usize) -> Result<(), Memory> {
        if let Some(controller) = self.description.controllers.as_slice().get(place) {
            if !controller.fallback.as_slice().is_empty() {
                self.erred.push(controller)?;
            }
        }
        Ok(())
    }

    /// No fallbacks are asked for of those whose updates failed before.
    pub fn forget_erred(&mut self) {
        self.erred.clear();
    }

    /// Takes the controllers whose fallbacks are asked for now.
    pub fn take_erred(&mut self, alloc: Global) -> Vec<&'a CtlDesc> {
        mem::replace(&mut self.erred, Vec::new(alloc))
    }

    /// A component comes to a lifecycle state.
    pub fn move_component(&mut self, name: &Name, target: Life) {
        if let Some(place) = component_place(self.description, name) {
            if let Some(life) = self.components.get_mut(place) {
                *life = target;
            }
        }
    }

    /// After a cycle the components that failed are in their state on error.
    pub fn fail(&mut self, failed: &[FailedPart]) {
        let described = self.description.components.as_slice();
        for part in failed {
            let place = part.place as usize;
            if let (Some(life), Some(component)) = (
                self.components.get_mut(place),
                described.get(place),
            ) {
                *life = component.on_error;
            }
        }
    }

    /// Who is chained is worked out anew.
    pub fn link(&mut self) {
        self.chained.fill(false);
        for (place, links) in self.links.iter().enumerate() {
            if self.life_at(place) == Some(Life::Active) {
                chain(&mut self.chained, links.claims.as_slice());
            }
        }
    }
}

/// One more is made. Gives how many were before.
fn one_more(made: &mut usize) -> usize {
    let before = *made;
    *made = before.saturating_add(1);
    before
}

/// Whoever these claims lead is chained.
fn chain(chained: &mut Vec<bool>, claims: &[Link]) {
    for claim in claims {
        if let Some(own) = claim.follower.and_then(|place| chained.get_mut(place)) {
            *own = true;
        }
    }
}

/// The described lifecycle state of each component.
fn initial(alloc: Global, description: &Description) -> Result<Vec<Life>, Memory> {
    let mut lives = Vec::new(alloc);
    for component in description.components.as_slice() {
        lives.push(component.initial)?;
    }
    Ok(lives)
}
