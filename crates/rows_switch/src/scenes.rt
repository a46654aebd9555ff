//! Pages of scenes, and how they are tried.

ghost use Rattle.std.specs.Prelude.{◌≡◌, ◌<◌, IsTrue, All};
ghost use Rattle.switch_plan.specs.Relations.{relations_of};

use crate::causes::{LISTS, MEMBERS};
use crate::efforts::EFFORTS;
use crate::groups::{CHAIN, GROUPED, GROUPS, IN_A_CHAIN};
use crate::largest::{RISING_REQUESTS, SINKING_REQUESTS};
use crate::requests::ONE_JOINT;
use crate::restarts::RESTARTS;
use cm_document::{Checked, Life, SwitchRequest};
use cm_model::{Planned, Seen};
use pages_calls::calls::{life_of, switch_of};
use pages_calls::described::{checked_description, place_of};
use pages_calls::robots::{ARM_AND_LEG, RISING, SEVEN, SINKING};
use pages_cases::acts::{Player, hold_acts};
use pages_cases::pages::halves;
use std::alloc::Global;
use std::test::Fail;
use switch_plan::{Relations, View, plan, plan_with};

#[test]
fn requests_have_their_plans(rt: HostRuntime) -> Result<(), Fail> {
    let alloc = rt.alloc();
    hold_acts::<Scene>(alloc, SEVEN, ONE_JOINT)?;
    hold_acts::<Scene>(alloc, GROUPED, GROUPS)?;
    hold_acts::<Scene>(alloc, IN_A_CHAIN, CHAIN)?;
    hold_acts::<Scene>(alloc, ARM_AND_LEG, LISTS)?;
    hold_acts::<Scene>(alloc, ARM_AND_LEG, MEMBERS)?;
    hold_acts::<Scene>(alloc, ARM_AND_LEG, RESTARTS)?;
    hold_acts::<Scene>(alloc, ARM_AND_LEG, EFFORTS)?;
    hold_acts::<Scene>(alloc, RISING, RISING_REQUESTS)?;
    hold_acts::<Scene>(alloc, SINKING, SINKING_REQUESTS)
}

/// A description with what is loaded of it; its components are active where nothing else is said.
#[derive(Drop)]
pub(crate) struct Scene {
    pub(crate) checked: Checked,
    pub(crate) loaded: Vec<Seen>,
    pub(crate) components: Vec<Life>,
}

impl Player for Scene {
    /// A scene of the robot before it: a line for each controller that is loaded, and for each component that is not
    /// active.
    fn begin(alloc: Global, robot: &str, lines: &str) -> Result<Scene, Fail> {
        let mut scene = Scene::of(alloc, robot)?;
        for line in lines.lines() {
            scene.add(line)?;
        }
        Ok(scene)
    }

    /// What is told of a request: the outcome, and the names of those to deactivate and to activate.
    fn told(&mut self, alloc: Global, words: &str) -> Result<String, Fail> {
        let request = switch_of(alloc, words)?;
        let told = self.answered(alloc, &request);
        drop(request);
        told
    }
}

impl Scene {
    /// The description of this text, with nothing loaded.
    fn of(alloc: Global, text: &str) -> Result<Scene, Fail> {
        Scene::made(alloc, checked_description(alloc, text)?)
    }

    fn made(alloc: Global, checked: Checked) -> Result<Scene, Fail> {
        let count = checked.description().components.as_slice().len();
        let components = vec![in alloc; Life::Active; count]?;
        Ok(Scene {
            checked,
            loaded: Vec::new(alloc),
            components,
        })
    }

    /// `NAME STATE`: a controller that is loaded next, with `chained` for an active one that is, and `late` for an
    /// inactive one that is not ready; or `PLACE STATE` of a component.
    fn add(&mut self, line: &str) -> Result<(), Fail> {
        let (name, word) = halves(line, " ")?;
        let life = seen_life(word)?;
        match name.parse() {
            Ok(place) => self.set_component(place, life),
            Err(_) => self.load(name, word, life),
        }
    }

    /// A component's state.
    fn set_component(&mut self, place: usize, life: Life) -> Result<(), Fail> {
        if place >= self.components.len() {
            return Err(Fail::new("no such component"));
        }
        self.components[place] = life;
        Ok(())
    }

    /// A controller is loaded next.
    fn load(&mut self, name: &str, word: &str, life: Life) -> Result<(), Fail> {
        let place = place_of(&self.checked, name)?;
        let serial = u32::try_from(self.loaded.len())?;
        self.loaded.push(Seen {
            serial,
            place,
            life,
            chained: word == "chained",
            ready: word != "late",
        })?;
        Ok(())
    }

    /// What is told of a request, which has the same plan with the relations.
    fn answered(&self, alloc: Global, request: &SwitchRequest) -> Result<String, Fail> {
        let planned = self.planned(alloc, request)?;
        let told = self.held(alloc, request, &planned);
        drop(planned);
        told
    }

    fn held(
        &self,
        alloc: Global,
        request: &SwitchRequest,
        planned: &Planned,
    ) -> Result<String, Fail> {
        self.hold_with_relations(alloc, request, planned)?;
        self.told_of(alloc, planned)
    }

    /// The plan of a request.
    fn planned(&self, alloc: Global, request: &SwitchRequest) -> Result<Planned, Fail> {
        let count = self.checked.description().controllers.as_slice().len();
        if !are_below(&self.loaded, count) {
            return Err(Fail::new("no such place"));
        }
        let view = View {
            checked: &self.checked,
            loaded: &self.loaded,
            components: &self.components,
        };
        Ok(plan(alloc, &view, request)?)
    }

    /// The plan of a request, with the relations.
    fn planned_with(
        &self,
        alloc: Global,
        relations: &Relations,
        request: &SwitchRequest,
    ) -> Result<Planned, Fail>
        requires relations { relations.now ≡ relations_of self.now.checked }
    {
        let count = self.checked.description().controllers.as_slice().len();
        if !are_below(&self.loaded, count) {
            return Err(Fail::new("no such place"));
        }
        let view = View {
            checked: &self.checked,
            loaded: &self.loaded,
            components: &self.components,
        };
        Ok(plan_with(alloc, &view, relations, request)?)
    }

    /// Fails where a request has another plan with the relations.
    fn hold_with_relations(
        &self,
        alloc: Global,
        request: &SwitchRequest,
        planned: &Planned,
    ) -> Result<(), Fail> {
        let relations = Relations::of(alloc, &self.checked)?;
        let other = self.planned_with(alloc, &relations, request);
        drop(relations);
        let other = other?;
        let is_same = other == *planned;
        drop(other);
        match is_same {
            true => Ok(()),
            false => Err(Fail::new("with the relations it is another plan")),
        }
    }

    fn told_of(&self, alloc: Global, planned: &Planned) -> Result<String, Fail> {
        let mut told = format!(in alloc; "{};", planned.outcome)?;
        self.push_names(&mut told, " -", planned.off.as_slice())?;
        told.push_str(";")?;
        self.push_names(&mut told, " +", planned.on.as_slice())?;
        Ok(told)
    }

    /// The names of the controllers with these serials, each behind a sign.
    fn push_names(&self, told: &mut String, sign: &str, serials: &[u32]) -> Result<(), Fail> {
        for serial in serials {
            told.push_str(sign)?;
            told.push_str(self.name_of(*serial)?)?;
        }
        Ok(())
    }

    /// The name of the controller with this serial.
    pub(crate) fn name_of(&self, serial: u32) -> Result<&str, Fail> {
        let seen = self.loaded.iter().find(|seen| seen.serial == serial);
        let place = seen.ok_or("no such serial")?.place;
        let controllers = self.checked.description().controllers.as_slice();
        let controller = controllers.get(place as usize).ok_or("no such place")?;
        Ok(controller.name.as_str())
    }
}

/// The lifecycle state of a line's word: one that is late is inactive, and one that is chained is active.
fn seen_life(word: &str) -> Result<Life, Fail> {
    match word {
        "late" => Ok(Life::Inactive),
        "chained" => Ok(Life::Active),
        _ => life_of(word),
    }
}

/// Whether each of these has its place below the count.
pub(crate) fn are_below(loaded: &[Seen], count: usize) -> bool
    ensures { IsTrue result → All (λ l. l.place < count) loaded.now }
{
    loaded.iter().all(|seen| (seen.place as usize) < count)
}
