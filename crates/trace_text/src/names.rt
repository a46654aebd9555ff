//! What stands for serials and places in a trace.

ghost use Rattle.std.specs.Prelude.{◌≡◌, ◌++◌, [], map, slice_get, option_map, unwrap_or, IfOk, OnOk, string_bytes};
ghost use Rattle.cm_document.specs.Links.{joints_of};
ghost use Rattle.cm_model.specs.Trace.{names_of, names_in, loaded_by};
ghost use Rattle.trace_text.specs.Heads.{run_head, body_head};
ghost use Rattle.trace_text.specs.OneByOne.{with_name};

use crate::interfaces::interface_texts;
use cm_document::{CompDesc, Description, JointDesc};
use cm_model::{Entry, Reply};
use fixed_num::Memory;
use iface_names::Name;
use std::alloc::Global;
use std::marker::Model;

/// The names of the controllers by serial, the components by place, the names of joints and interfaces by place. What
/// the items of a cycle begin with is kept as it prints: it stands in each line.
#[derive(Debug, Drop)]
pub struct Names<'a> {
    controllers: Vec<&'a Name>,
    /// By serial, what the item of an update that computed begins with.
    runs: Vec<String>,
    components: &'a [CompDesc],
    joints: Vec<&'a Name>,
    /// By place, what the item of a body begins with.
    bodies: Vec<String>,
    interfaces: Vec<String>,
}

impl<'a> Model for Names<'a> {
    ghost use Rattle.std.specs.Prelude.{◌≡◌, map, string_bytes};
    ghost use Rattle.cm_model.specs.Items.{Names as Told};
    ghost use Rattle.trace_text.specs.Heads.{run_head, body_head};

    ghost Value = { Told };

    ghost view = { λ s. record {
      controllers = map (λ r. r.now) s.controllers.items;
      components = s.components.now;
      joints = map (λ r. r.now) s.joints.items;
      interfaces = map string_bytes s.interfaces.items;
    } };

    ghost invariant = { λ s.
        (map string_bytes s.runs.items ≡ map run_head (map (λ r. r.now) s.controllers.items))
        × (map string_bytes s.bodies.items ≡ map body_head (map (λ r. r.now) s.joints.items)) };
}

impl<'a> Names<'a> {
    ghost use Rattle.cm_model.specs.Items.{nth_name};

    /// What stands for each number in the trace of a history.
    pub fn of(
        alloc: Global,
        description: &'a Description,
        history: &'a [Entry],
    ) -> Result<Names<'a>, Memory>
        ensures { IfOk result (λ names. names ≡ names_in description.now history.now) }
    {
        let components = description.components.as_slice();
        let controllers = loaded_names(alloc, history)?;
        let runs = run_heads(alloc, controllers.as_slice())?;
        let joints = joint_names(alloc, components)?;
        let bodies = body_heads(alloc, joints.as_slice())?;
        Ok(Names {
            controllers,
            runs,
            components,
            joints,
            bodies,
            interfaces: interface_texts(alloc, description)?,
        })
    }

    /// What stands for each number before a controller is loaded.
    pub fn before_loads(alloc: Global, description: &'a Description) -> Result<Names<'a>, Memory>
        ensures { IfOk result (λ names. names ≡ names_in description.now []) }
    {
        let components = description.components.as_slice();
        let joints = joint_names(alloc, components)?;
        let bodies = body_heads(alloc, joints.as_slice())?;
        Ok(Names {
            controllers: Vec::new(alloc),
            runs: Vec::new(alloc),
            components,
            joints,
            bodies,
            interfaces: interface_texts(alloc, description)?,
        })
    }

    /// A controller of this name is given the next serial. Without memory the names stay as they were.
    pub fn load(&mut self, alloc: Global, name: &'a Name) -> Result<(), Memory>
        ensures loaded { OnOk result (self.new ≡ with_name self.old name.now) }
    {
        self.controllers.reserve(1)?;
        self.runs.push(run_head(alloc, name)?)?;
        self.controllers.push_reserved(name);
        Ok(())
    }

    /// What the item of an update that computed begins with, of the controller with this serial.
    pub fn run(&self, serial: u32) -> &str
        ensures { result.now ≡ run_head (nth_name self.now.controllers serial) }
    {
        head_at(self.runs.as_slice(), serial as usize, "run  ok")
    }

    /// What the item of a body begins with, of the joint at this place.
    pub fn body(&self, place: usize) -> &str
        ensures { result.now ≡ body_head (nth_name self.now.joints place) }
    {
        head_at(self.bodies.as_slice(), place, "joint ")
    }

    /// The name of the controller with this serial.
    pub fn controller(&self, serial: u32) -> &str
        ensures { result.now ≡ nth_name self.now.controllers serial }
    {
        match self.controllers.get(serial as usize) {
            Some(name) => name.as_str(),
            None => "",
        }
    }

    /// The component at this place.
    pub fn component(&self, place: u32) -> Option<&CompDesc>
        ensures { option_map (λ c. c.now) result ≡ slice_get self.now.components place }
    {
        self.components.get(place as usize)
    }

    /// The name of the interface at this place.
    pub fn interface(&self, place: u32) -> &str
        ensures { result.now ≡ nth_name self.now.interfaces place }
    {
        match self.interfaces.get(place as usize) {
            Some(name) => name.as_str(),
            None => "",
        }
    }
}

/// The names of the controllers by serial: each load that was given one is of the next.
fn loaded_names(alloc: Global, history: &[Entry]) -> Result<Vec<&Name>, Memory>
    ensures { IfOk result (λ names. map (λ r. r.now) names.items ≡ names_of history.now) }
{
    let mut names = Vec::new(alloc);
    for entry in history {
        if let Some(name) = loaded_by(entry) {
            names.push(name)?;
        }
    }
    Ok(names)
}

/// The name of the controller that this entry loaded.
fn loaded_by(entry: &Entry) -> Option<&Name>
    ensures { option_map (λ r. r.now) result ≡ loaded_by entry.now.call entry.now.reply }
{
    match entry.reply {
        Reply::Serial(_) => entry.call.load_name(),
        _ => None,
    }
}

/// The head at this place; past the last it is that of no name.
fn head_at<'n>(heads: &'n [String], place: usize, of_none: &'n str) -> &'n str
    ensures { result.now ≡ unwrap_or (slice_get (map string_bytes heads.now) place) of_none.now }
{
    match heads.get(place) {
        Some(head) => head.as_str(),
        None => of_none,
    }
}

/// What the items of updates begin with, of the controllers of these names.
fn run_heads(alloc: Global, names: &[&Name]) -> Result<Vec<String>, Memory>
    ensures { IfOk result
        (λ heads. map string_bytes heads.items ≡ map run_head (map (λ r. r.now) names.now)) }
{
    let mut heads = Vec::with_capacity(alloc, names.len())?;
    for name in names {
        heads.push(run_head(alloc, name)?)?;
    }
    Ok(heads)
}

fn run_head(alloc: Global, name: &Name) -> Result<String, Memory>
    ensures { IfOk result (λ head. string_bytes head ≡ run_head name.now) }
{
    Ok(format!(in alloc; "run {name} ok")?)
}

/// What the items of bodies begin with, of the joints of these names.
fn body_heads(alloc: Global, names: &[&Name]) -> Result<Vec<String>, Memory>
    ensures { IfOk result
        (λ heads. map string_bytes heads.items ≡ map body_head (map (λ r. r.now) names.now)) }
{
    let mut heads = Vec::with_capacity(alloc, names.len())?;
    for name in names {
        heads.push(body_head(alloc, name)?)?;
    }
    Ok(heads)
}

fn body_head(alloc: Global, name: &Name) -> Result<String, Memory>
    ensures { IfOk result (λ head. string_bytes head ≡ body_head name.now) }
{
    Ok(format!(in alloc; "joint {name}")?)
}

/// The names of the joints of all components.
fn joint_names(alloc: Global, components: &[CompDesc]) -> Result<Vec<&Name>, Memory>
    ensures { IfOk result (λ names. map (λ r. r.now) names.items ≡ map (λ j. j.name) (joints_of components.now)) }
{
    let mut names = Vec::new(alloc);
    for component in components {
        push_joints(&mut names, component.joints.as_slice())?;
    }
    Ok(names)
}

fn push_joints<'a>(names: &mut Vec<&'a Name>, joints: &'a [JointDesc]) -> Result<(), Memory>
    ensures { OnOk result
        (map (λ r. r.now) names.new.items ≡ map (λ r. r.now) names.old.items ++ map (λ j. j.name) joints.now) }
{
    for joint in joints {
        names.push(&joint.name)?;
    }
    Ok(())
}
