//! The board of a description.

ghost use Rattle.std.specs.Prelude.{◌≡◌, ◌++◌, true, map, flat_map, IfOk, OnOk};
ghost use Rattle.cm_document.specs.Links.{exported_for};
ghost use Rattle.cm_document.specs.Places.{interfaces_of, kinds_of};
ghost use Rattle.loan_board.specs.Loans.{idle, idle_of};

use crate::board::{Board, Loan};
use cm_document::{Checked, CompDesc, CtlDesc, JointDesc};
use fixed_num::{Memory, StoredValue, Value};
use iface_names::{IfaceName, Kind};
use std::alloc::Global;

impl Board {
    /// The interfaces of a description, each at its place: free, unavailable and Unset.
    pub fn make(alloc: Global, checked: &Checked) -> Result<Board, Memory>
        ensures { IfOk result (λ board. board ≡ map idle_of (interfaces_of checked.now)) }
    {
        let description = checked.description();
        let components = description.components.as_slice();
        let mut loans = Vec::new(alloc);
        push_components(&mut loans, components, false)?;
        push_components(&mut loans, components, true)?;
        push_references(&mut loans, description.controllers.as_slice())?;
        Ok(Board { loans })
    }
}

/// The command interfaces of components, or else their state interfaces.
fn push_components(
    loans: &mut Vec<Loan>,
    components: &[CompDesc],
    is_command: bool,
) -> Result<(), Memory>
    ensures { OnOk result (loans.new.items ≡ loans.old.items
        ++ map (λ _. idle is_command) (flat_map (λ c. flat_map (kinds_of is_command) c.joints) components.now)) }
{
    for component in components {
        push_joints(loans, component.joints.as_slice(), is_command)?;
    }
    Ok(())
}

/// The command interfaces of joints, or else their state interfaces.
fn push_joints(loans: &mut Vec<Loan>, joints: &[JointDesc], is_command: bool) -> Result<(), Memory>
    ensures { OnOk result (loans.new.items ≡ loans.old.items
        ++ map (λ _. idle is_command) (flat_map (kinds_of is_command) joints.now)) }
{
    for joint in joints {
        push_kinds(loans, joint.kinds(is_command), is_command)?;
    }
    Ok(())
}

/// An interface of each of these kinds.
fn push_kinds(loans: &mut Vec<Loan>, kinds: &[Kind], is_command: bool) -> Result<(), Memory>
    ensures { OnOk result (loans.new.items ≡ loans.old.items ++ map (λ _. idle is_command) kinds.now) }
{
    for _kind in kinds {
        loans.push(idle(is_command))?;
    }
    Ok(())
}

/// The references of controllers.
fn push_references(loans: &mut Vec<Loan>, controllers: &[CtlDesc]) -> Result<(), Memory>
    ensures { OnOk result (loans.new.items ≡ loans.old.items
        ++ map (λ _. idle true) (flat_map (λ c. exported_for c.params c) controllers.now)) }
{
    for controller in controllers {
        push_references_for(loans, controller.exported_for())?;
    }
    Ok(())
}

/// A reference for each of these interfaces.
fn push_references_for(loans: &mut Vec<Loan>, interfaces: &[IfaceName]) -> Result<(), Memory>
    ensures { OnOk result (loans.new.items ≡ loans.old.items ++ map (λ _. idle true) interfaces.now) }
{
    for _interface in interfaces {
        loans.push(idle(true))?;
    }
    Ok(())
}

/// What is kept of an interface at first.
fn idle(is_command: bool) -> Loan
    ensures { result ≡ idle is_command }
{
    Loan {
        value: StoredValue::of(Value::Unset),
        owner: None,
        is_command,
        is_available: false,
    }
}
