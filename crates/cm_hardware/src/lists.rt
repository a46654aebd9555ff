//! The lists of components and of interfaces.

ghost use Rattle.std.specs.Prelude.{◌≡◌, ◌<◌, ◌≤◌, ◌^◌, map, length, vec_len, vec_capacity, IfOk};
ghost use Rattle.cm_model.specs.State.{State, component_lines_from, component_lines, interface_lines};
ghost use Rattle.cm_hardware.specs.Holding.{IsHardwareOf};
ghost use Rattle.cm_hardware.specs.Listed.{loan_lines_from};
ghost use Rattle.cm_hardware.specs.Shown.{HasLinesFor, Shows};

use crate::hardware::Unit;
use crate::manager::ResourceManager;
use cm_model::{CompLine, IfaceLine};
use fixed_num::Memory;
use loan_board::Loan;
use sequence::Seq;
use std::alloc::Global;

/// The lists of components and of interfaces, written down.
#[derive(Debug, Drop)]
pub struct Lists {
    /// A line for each component, by place.
    pub components: Vec<CompLine>,
    /// What the board kept of each interface, by place: the lines of interfaces are made of it when somebody asks.
    pub loans: Vec<Loan>,
}

impl Lists {
    /// The list of interfaces, as it was written down. No board is longer than a word counts; of a longer list there
    /// would be no room.
    pub fn interface_lines(&self, alloc: Global) -> Result<Seq<IfaceLine>, Memory>
        ensures { IfOk result (λ lines. lines ≡ loan_lines_from 0 self.now.loans.items) }
    {
        if self.loans.len() > u32::MAX as usize {
            return Err(Memory);
        }
        let mut lines = Vec::with_capacity(alloc, self.loans.len())?;
        show_loans(self.loans.as_slice(), &mut lines);
        Ok(Seq::from_vec(lines))
    }
}

impl ResourceManager {
    /// Room for the lists of this hardware.
    pub fn room_for_lists(&self, alloc: Global) -> Result<Lists, Memory>
        ensures { IfOk result (HasLinesFor self.now) }
    {
        Ok(Lists {
            components: Vec::with_capacity(alloc, self.units.len())?,
            loans: Vec::from_slice(alloc, self.board.loans())?,
        })
    }

    /// The lists are written down as they are now. It takes no memory.
    #[tactic(auto, using(crate::proofs::ListLemmas::lists_agree))]
    pub fn show(&self, lists: &mut Lists)
        requires { HasLinesFor self.now lists.old }
        ensures shown { Shows self.now lists.new }
        ensures room { (vec_capacity lists.new.components ≡ vec_capacity lists.old.components)
            × (vec_len lists.new.loans ≡ vec_len lists.old.loans) }
    {
        show_units(&self.units, &mut lists.components);
        lists.loans.copy_from_slice(self.board.loans());
    }

    /// The list of components, by place: the lifecycle state of each.
    #[tactic(auto, using(crate::proofs::ListLemmas::lists_agree))]
    pub fn component_lines(&self, alloc: Global) -> Result<Seq<CompLine>, Memory>
        ensures { IfOk result (λ lines. (s : State) → IsHardwareOf s self.now → lines ≡ component_lines s) }
    {
        let mut lines = Vec::with_capacity(alloc, self.units.len())?;
        show_units(&self.units, &mut lines);
        Ok(Seq::from_vec(lines))
    }

    /// The list of interfaces, by place: what each holds, who claims it, and whether it is available.
    #[tactic(auto, using(crate::proofs::ListLemmas::lists_agree))]
    pub fn interface_lines(&self, alloc: Global) -> Result<Seq<IfaceLine>, Memory>
        ensures { IfOk result (λ lines. (s : State) → IsHardwareOf s self.now → lines ≡ interface_lines s) }
    {
        self.board.len();
        let mut lines = Vec::with_capacity(alloc, self.board.loans().len())?;
        show_loans(self.board.loans(), &mut lines);
        Ok(Seq::from_vec(lines))
    }
}

/// A line for each component, in this room.
fn show_units(units: &[Unit], lines: &mut Vec<CompLine>)
    requires few { length units.now < 2 ^ 32 }
    requires room { length units.now ≤ vec_capacity lines.old }
    ensures lines { lines.new.items ≡ component_lines_from 0 (map (λ m. m.hardware.life) units.now) }
    ensures capacity { vec_capacity lines.new ≡ vec_capacity lines.old }
{
    lines.clear();
    for (place, unit) in units.iter().enumerate() {
        lines.push_reserved(CompLine {
            place: place as u32,
            life: unit.component.life(),
        });
    }
}

/// A line for each place of a board, in this room.
fn show_loans(loans: &[Loan], lines: &mut Vec<IfaceLine>)
    requires few { length loans.now < 2 ^ 32 }
    requires room { length loans.now ≤ vec_capacity lines.old }
    ensures lines { lines.new.items ≡ loan_lines_from 0 loans.now }
    ensures capacity { vec_capacity lines.new ≡ vec_capacity lines.old }
{
    lines.clear();
    for (place, loan) in loans.iter().enumerate() {
        lines.push_reserved(IfaceLine {
            value: loan.value,
            place: place as u32,
            owner: loan.owner,
            command: loan.is_command,
            available: loan.is_available,
        });
    }
}
