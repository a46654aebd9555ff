//! Requests that are planned one after the other.

ghost use Rattle.std.specs.Prelude.{IsTrue, IfOk};
ghost use Rattle.request_plan.specs.Situations.{IsSituation};

use crate::scenes::{Scene, are_below};
use chain_order::PlaceSet;
use cm_document::Checked;
use cm_model::{Decision, Reply, Request};
use iface_names::Name;
use pages_calls::calls::{life_of, name_of, switch_of};
use pages_calls::robots::ARM_AND_LEG;
use pages_cases::acts::{Player, hold_acts};
use pages_cases::pages::push_parted;
use request_plan::{Act, Conclusion, Plan, Requests, Situation, Switched};
use sequence::Seq;
use std::alloc::Global;
use std::test::Fail;
use switch_plan::Relations;

/// Each line has one request more that waits, and what is planned for it behind those before it: what becomes of it,
/// who is stopped, started, active and chained, and the order of updates after it. A fifth does not come to wait, and a
/// close ends all that do. Those behind `fallback` stand in before all requests.
const PLANS: &str = r#"top inactive
middle inactive
base inactive
strict +base => done +base =base / base
strict +middle => done -base +middle +base =middle =base ^base / middle base
strict +top => done -middle +top +middle =top =middle =base ^middle ^base / top middle base

top inactive
middle inactive
base inactive
strict +middle => refused middle missing_follower base/j2/position /
strict +middle +base => done +middle +base =middle =base ^base / middle base
strict -middle => done -middle -base +base =base / base
strict => done =base / base
strict +top => queue_full
hw leg inactive => queue_full

fwd inactive
other inactive
strict +fwd => done +fwd =fwd / fwd
strict +other => refused other conflict j1/position fwd / fwd
best -fwd +other => done -fwd +other =other / other

fwd inactive
hw arm unconfigured => done 0 unconfigured /
strict +fwd => refused fwd unavailable j1/position /
hw arm active => done 0 active /
strict +fwd => done +fwd =fwd / fwd

fwd inactive
strict +fwd => done +fwd =fwd / fwd
hw arm unconfigured => refused arm in_use fwd / fwd
hw arm inactive => done 0 inactive / fwd
strict -fwd => done -fwd /

fwd inactive
hw leg finalized => done 1 finalized /
hw leg active => refused leg no_such_move /
hw nosuch active => refused nosuch unknown /

fwd inactive
watch inactive
speed late
best +nosuch +speed +fwd +fwd +watch => done dropped nosuch unknown, fwd twice, speed not_ready \
+fwd +watch =fwd =watch / fwd watch
strict +watch +fwd -fwd +speed => refused watch already_active / fwd watch
strict -watch -watch => refused watch twice / fwd watch
best -watch +watch -fwd => done -fwd -watch +watch =watch / watch

fwd inactive
other inactive
watch inactive
fallback nosuch fwd other watch fwd => done dropped nosuch unknown, fwd twice, other conflict j1/position fwd \
+fwd +watch =fwd =watch / fwd watch
strict -fwd +other => done -fwd +other =other =watch / other watch
strict +fwd => refused fwd conflict j1/position other / other watch
fallback other => done +other =other / other

fwd inactive
told 0 => not yet
strict +fwd => done +fwd =fwd / fwd
hw leg finalized => done 1 finalized / fwd
told 0 => not yet
told 1 => not yet
close => 0 loop_ended; 1 loop_ended
told 0 => loop_ended
told 1 => loop_ended
told 2 => not yet
strict => loop_ended
hw leg active => loop_ended
close => none"#;

#[test]
fn requests_are_planned_one_after_the_other(rt: HostRuntime) -> Result<(), Fail> {
    hold_acts::<Queue>(rt.alloc(), ARM_AND_LEG, PLANS)
}

/// The names that these words are.
fn names_of(alloc: Global, words: &str) -> Result<Seq<Name>, Fail> {
    let mut names = Seq::new(alloc);
    for word in words.split_whitespace() {
        names.push(name_of(alloc, word)?)?;
    }
    Ok(names)
}

/// A scene in which requests wait. Besides a request an act is `close`, `told TICKET`: what became of the request, or
/// `fallback` with the names of those that are to stand in.
#[derive(Drop)]
struct Queue {
    scene: Scene,
    fallbacks: Seq<Name>,
    requests: Requests,
    is_closed: bool,
}

impl Player for Queue {
    fn begin(alloc: Global, robot: &str, lines: &str) -> Result<Queue, Fail> {
        Ok(Queue {
            scene: Scene::begin(alloc, robot, lines)?,
            fallbacks: Seq::new(alloc),
            requests: Requests::none(alloc),
            is_closed: false,
        })
    }

    fn told(&mut self, alloc: Global, words: &str) -> Result<String, Fail> {
        match words.split_once(" ") {
            Some(("told", ticket)) => self.outcome_of(alloc, ticket.parse()?),
            Some(("fallback", names)) => self.stand_in(alloc, names),
            None if words == "close" => self.close(alloc),
            _ => self.ask(alloc, words),
        }
    }
}

impl Queue {
    /// The request comes to wait, and is planned behind the others; or why it does not.
    fn ask(&mut self, alloc: Global, words: &str) -> Result<String, Fail> {
        let asked = request(alloc, words)?;
        let reply = self.requests.ask(alloc, self.is_closed, asked)?;
        let told = self.replied(alloc, &reply);
        drop(reply);
        told
    }

    /// What is told of a request that is replied to so.
    fn replied(&self, alloc: Global, reply: &Reply) -> Result<String, Fail> {
        match reply {
            Reply::Queued(_) => self.last_planned(alloc),
            Reply::Not(why) => Ok(format!(in alloc; "{why}")?),
            _ => Err(Fail::new("another reply")),
        }
    }

    fn last_planned(&self, alloc: Global) -> Result<String, Fail> {
        let plan = self.plan(alloc)?;
        let told = self.last_told(alloc, &plan);
        drop(plan);
        told
    }

    /// These are to stand in, and are planned before the requests.
    fn stand_in(&mut self, alloc: Global, names: &str) -> Result<String, Fail> {
        self.fallbacks = names_of(alloc, names)?;
        let plan = self.plan(alloc)?;
        let told = self.first_told(alloc, &plan);
        drop(plan);
        told
    }

    fn outcome_of(&self, alloc: Global, ticket: u32) -> Result<String, Fail> {
        match self.requests.told(ticket) {
            Some(outcome) => Ok(format!(in alloc; "{outcome}")?),
            None => Ok(String::from_str(alloc, "not yet")?),
        }
    }

    /// What the close tells.
    fn close(&mut self, alloc: Global) -> Result<String, Fail> {
        self.is_closed = true;
        let decisions = self.requests.close_all();
        let mut told = String::new(alloc);
        for decision in decisions.as_slice() {
            push_parted(&mut told, "; ", "")?;
            write!(told, "{decision}")?;
        }
        if told.is_empty() {
            told.push_str("none")?;
        }
        Ok(told)
    }

    /// The plan for those that stand in and those that wait.
    fn plan(&self, alloc: Global) -> Result<Plan, Fail> {
        let checked = &self.scene.checked;
        let names = self.fallbacks.clone()?;
        let situation = situation_of(&self.scene)?;
        let relations = Relations::of(alloc, checked)?;
        let plan = self
            .requests
            .plan(alloc, checked, &relations, situation, names);
        drop(relations);
        Ok(plan?)
    }

    /// What is told of those that stand in.
    fn first_told(&self, alloc: Global, plan: &Plan) -> Result<String, Fail> {
        let first = plan.first.as_ref().ok_or("nobody stands in")?;
        self.told_of(alloc, plan, first)
    }

    /// What is told of the last request.
    fn last_told(&self, alloc: Global, plan: &Plan) -> Result<String, Fail> {
        let last = plan.conclusions.last().ok_or("nothing is planned")?;
        self.told_of(alloc, plan, last)
    }

    /// What is told of a conclusion of a plan, and of the order after all of it.
    fn told_of(&self, alloc: Global, plan: &Plan, conclusion: &Conclusion) -> Result<String, Fail> {
        hold_decisions(plan)?;
        let mut told = String::new(alloc);
        self.push_conclusion(alloc, &mut told, conclusion)?;
        told.push_str(" /")?;
        for member in plan.order.iter() {
            told.push_str(" ")?;
            told.push_str(self.scene.name_of(member.serial)?)?;
        }
        Ok(told)
    }

    fn push_conclusion(
        &self,
        alloc: Global,
        told: &mut String,
        conclusion: &Conclusion,
    ) -> Result<(), Fail> {
        let outcome = format!(in alloc; "{}", conclusion.outcome)?;
        told.push_str(outcome.as_str())?;
        match &conclusion.act {
            Act::Nothing => {}
            Act::Switch(switched) => self.push_sets(told, switched)?,
            Act::Move { component, target } => {
                let moved = format!(in alloc; " {component} {target}")?;
                told.push_str(moved.as_str())?;
            }
        }
        Ok(())
    }

    fn push_sets(&self, told: &mut String, switched: &Switched) -> Result<(), Fail> {
        self.push_set(told, " -", &switched.stopped)?;
        self.push_set(told, " +", &switched.started)?;
        self.push_set(told, " =", &switched.set)?;
        self.push_set(told, " ^", &switched.chained)
    }

    /// The names of the members of a set, by place, each behind a sign.
    fn push_set(&self, told: &mut String, sign: &str, set: &PlaceSet) -> Result<(), Fail> {
        let controllers = self.scene.checked.description().controllers.as_slice();
        for (place, controller) in controllers.iter().enumerate() {
            if set.holds(place) {
                push_signed(told, sign, controller.name.as_str())?;
            }
        }
        Ok(())
    }
}

fn push_signed(told: &mut String, sign: &str, name: &str) -> Result<(), Fail> {
    told.push_str(sign)?;
    told.push_str(name)?;
    Ok(())
}

/// Fails where what is told is not what was concluded: of those that stand in first, and then by ticket.
fn hold_decisions(plan: &Plan) -> Result<(), Fail> {
    let decisions = match &plan.first {
        Some(conclusion) => behind_first(conclusion, plan.decisions.as_slice())?,
        None => plan.decisions.as_slice(),
    };
    if decisions.len() != plan.conclusions.len() {
        return Err(Fail::new("not each is told"));
    }
    for (ticket, decision) in decisions.iter().enumerate() {
        hold_decision(&plan.conclusions, ticket, decision)?;
    }
    Ok(())
}

/// The decisions behind the first, which is that on those that stand in.
fn behind_first<'a>(
    conclusion: &Conclusion,
    decisions: &'a [Decision],
) -> Result<&'a [Decision], Fail> {
    let (first, others) = decisions.split_first().ok_or("not each is told")?;
    if first.ticket.is_some() || first.outcome != conclusion.outcome {
        return Err(Fail::new("another outcome is told of those that stand in"));
    }
    Ok(others)
}

fn hold_decision(
    conclusions: &[Conclusion],
    ticket: usize,
    decision: &Decision,
) -> Result<(), Fail> {
    let concluded = conclusions.get(ticket).ok_or("more is told")?;
    if decision.ticket != u32::try_from(ticket).ok() || decision.outcome != concluded.outcome {
        return Err(Fail::new("another outcome is told"));
    }
    Ok(())
}

/// `hw COMPONENT STATE`, or the words of a switch.
fn request(alloc: Global, words: &str) -> Result<Request, Fail> {
    let Some(rest) = words.strip_prefix("hw ") else {
        return Ok(Request::Switch(switch_of(alloc, words)?));
    };
    let (name, state) = rest.split_once(" ").ok_or("no state")?;
    Ok(Request::Hardware {
        component: name_of(alloc, name)?,
        target: life_of(state)?,
    })
}

/// What a scene shows of its state.
fn situation_of(scene: &Scene) -> Result<Situation, Fail>
    ensures { IfOk result (IsSituation scene.now.checked) }
{
    let situation = Situation {
        loaded: scene.loaded.clone()?,
        lives: scene.components.clone()?,
    };
    if !is_situation(&situation, &scene.checked) {
        return Err(Fail::new("a place is not described"));
    }
    Ok(situation)
}

/// Whether each loaded controller has its place, and each component its state.
fn is_situation(situation: &Situation, checked: &Checked) -> bool
    ensures { IsTrue result → IsSituation checked.now situation.now }
{
    let description = checked.description();
    let components = description.components.as_slice().len();
    let controllers = description.controllers.as_slice().len();
    situation.lives.len() == components && are_below(&situation.loaded, controllers)
}
