//! Reads of a broadcaster: a list of states, or all that are described.

ghost use Rattle.std.specs.Prelude.{◌≡◌, ◌++◌, flat_map, map, IfOk, OnOk};
ghost use Rattle.cm_document.specs.Described.{states_of, states_of_joint};
ghost use Rattle.cm_document.specs.Forms.{all_or_list, list_of, state_in};
ghost use Rattle.iface_names.specs.declared.interface.IfaceName.TheVariants as interface;

use crate::forms::{Form, ListOf};
use crate::keys::same_key;
use crate::values::State;
use cm_document::{CompDesc, DescFault};
use iface_names::{IfaceName, Kind, Name};
use sequence::{Seq, Shared};
use std::alloc::{AllocError, Global};
use toml::Value;

/// A list of states; or the text `all`, for these.
#[derive(Drop)]
pub struct AllOrList<'a> {
    /// Every state that is described. Those who read all share it.
    pub all: &'a Shared<Seq<IfaceName>>,
}

impl Form for AllOrList<'_> {
    type Read = Shared<Seq<IfaceName>>;

    ghost form = { λ s. all_or_list s.all.now };

    fn read(
        &self,
        alloc: Global,
        path: &str,
        value: &Value,
    ) -> Result<Shared<Seq<IfaceName>>, DescFault> {
        match value {
            Value::String(word) if same_key(word.as_str(), "all") => Ok(self.all.share()?),
            _ => ReadList.read(alloc, path, value),
        }
    }
}

/// A list of states.
#[derive(Drop)]
pub struct ReadList;

impl Form for ReadList {
    type Read = Shared<Seq<IfaceName>>;

    ghost form = { λ _. list_of state_in };

    fn read(
        &self,
        alloc: Global,
        path: &str,
        value: &Value,
    ) -> Result<Shared<Seq<IfaceName>>, DescFault> {
        let states = ListOf(State).read(alloc, path, value)?;
        Ok(Shared::new(alloc, states)?)
    }
}

/// Every state that the components have, in written order, to be shared by those who read all.
pub fn every_state(
    alloc: Global,
    components: &[CompDesc],
) -> Result<Shared<Seq<IfaceName>>, AllocError>
    ensures { IfOk result (λ all. all ≡ states_of components.now) }
{
    Shared::new(alloc, states_of(alloc, components)?)
}

/// Every state that the components have, in written order.
fn states_of(alloc: Global, components: &[CompDesc]) -> Result<Seq<IfaceName>, AllocError>
    ensures { IfOk result (λ states. states ≡ states_of components.now) }
{
    let mut states = Seq::new(alloc);
    for component in components {
        push_component(&mut states, component)?;
    }
    Ok(states)
}

/// Then the states of one component more.
fn push_component(states: &mut Seq<IfaceName>, component: &CompDesc) -> Result<(), AllocError>
    ensures { OnOk result (states.new ≡ states.old ++ flat_map states_of_joint component.now.joints) }
{
    for joint in component.joints.as_slice() {
        push_joint(states, &joint.name, joint.states.as_slice())?;
    }
    Ok(())
}

/// Then the states of one joint more.
fn push_joint(states: &mut Seq<IfaceName>, joint: &Name, kinds: &[Kind]) -> Result<(), AllocError>
    ensures { OnOk result (states.new ≡ states.old ++ map (interface.Joint joint.now) kinds.now) }
{
    for kind in kinds {
        states.push(IfaceName::Joint {
            joint: joint.clone()?,
            kind: *kind,
        })?;
    }
    Ok(())
}
