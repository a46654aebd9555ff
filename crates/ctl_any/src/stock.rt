//! So many blanks of each kind.

ghost use Rattle.cm_stock.specs.Stocks.{AreBlanks};
ghost use Rattle.std.specs.Prelude.{◌+◌, IfOk, OnOk, map};
ghost use Rattle.cm_model.specs.Blanks.{blanks_of, blanks_of_each, with_count};
ghost use Rattle.cm_model.specs.declared.blanks.Blanks.{Blanks};
ghost use Rattle.ctl_any.specs.Stocks.{with_some_of};

use crate::any_kind::AnyKind;
use cm_document::{CONTROLLER_KINDS, CtlKind};
use cm_model::Blanks;
use cm_stock::add;
use ctl_trait::Controller;
use fixed_num::Memory;
use std::alloc::Global;

/// So many blanks of each kind.
pub fn blanks(alloc: Global, each: u32) -> Result<Vec<AnyKind>, Memory>
    ensures { IfOk result
        (λ blanks. AreBlanks ⟦<AnyKind as Controller>⟧.meaning blanks.items (blanks_of_each each)) }
{
    let counts = Blanks::of_each(each);
    let blanks = counted(alloc, &counts)?;
    Ok(blanks)
}

/// As many blanks of each kind as these counts say.
pub fn counted(alloc: Global, counts: &Blanks) -> Result<Vec<AnyKind>, Memory>
    ensures { IfOk result
        (λ blanks. AreBlanks ⟦<AnyKind as Controller>⟧.meaning blanks.items counts.now) }
{
    counts.are_counted();
    let mut blanks = Vec::new(alloc);
    add_counted(&mut blanks, &CONTROLLER_KINDS, counts)?;
    Ok(blanks)
}

/// As many blanks more of each of these kinds as the counts say.
fn add_counted(
    blanks: &mut Vec<AnyKind>,
    kinds: &[(&str, CtlKind)],
    counts: &Blanks,
) -> Result<(), Memory>
    ensures { OnOk result ((b : Blanks) → AreBlanks ⟦<AnyKind as Controller>⟧.meaning blanks.old.items b
        → AreBlanks ⟦<AnyKind as Controller>⟧.meaning blanks.new.items
        (with_some_of counts.now b (map (λ row. row.1) kinds.now))) }
{
    for row in kinds {
        add_some(blanks, row.1, counts.of(row.1))?;
    }
    Ok(())
}

/// So many blanks of this kind, behind those that are there.
fn add_some(blanks: &mut Vec<AnyKind>, kind: CtlKind, count: u32) -> Result<(), Memory>
    ensures { OnOk result ((b : Blanks) → AreBlanks ⟦<AnyKind as Controller>⟧.meaning blanks.old.items b
        → AreBlanks ⟦<AnyKind as Controller>⟧.meaning blanks.new.items
        (with_count b kind (blanks_of b kind + count))) }
{
    for _number in 0..count {
        add(blanks, kind, AnyKind::blank(kind))?;
    }
    Ok(())
}
