//! Pages of acts: each case makes something, and line by line something is done to it and told.

use crate::pages::{expanded, halves, hold_told};
use std::alloc::Global;
use std::test::Fail;

/// Something that is acted on.
pub trait Player: Sized + Drop {
    /// What a case makes of its head, the lines that are no acts. Before it stands the same for all cases.
    fn begin(alloc: Global, before: &str, head: &str) -> Result<Self, Fail>;

    /// What is told of an act.
    fn told(&mut self, alloc: Global, act: &str) -> Result<String, Fail>;
}

/// Fails at the first act of a page of which something else is told than it says, with what is told. A case is a
/// paragraph: the lines that make a player, and then lines `ACT => TOLD`.
pub fn hold_acts<P: Player>(alloc: Global, before: &str, page: &str) -> Result<(), Fail> {
    let before = expanded(alloc, before)?;
    for case in page.split("\n\n") {
        hold_case::<P>(alloc, before.as_str(), case)?;
    }
    Ok(())
}

fn hold_case<P: Player>(alloc: Global, before: &str, case: &str) -> Result<(), Fail> {
    let case = expanded(alloc, case)?;
    let head = head_of(alloc, case.as_str())?;
    let mut player = P::begin(alloc, before, head.as_str())?;
    for line in case.as_str().lines() {
        hold_act(alloc, &mut player, line)?;
    }
    Ok(())
}

/// The lines of a case that are no acts.
fn head_of(alloc: Global, case: &str) -> Result<String, Fail> {
    let mut head = String::new(alloc);
    for line in case.lines() {
        push_head(&mut head, line)?;
    }
    Ok(head)
}

fn push_head(head: &mut String, line: &str) -> Result<(), Fail> {
    if !line.contains(" => ") {
        head.push_str(line)?;
        head.push_str("\n")?;
    }
    Ok(())
}

fn hold_act<P: Player>(alloc: Global, player: &mut P, line: &str) -> Result<(), Fail> {
    if !line.contains(" => ") {
        return Ok(());
    }
    let (act, want) = halves(line, " => ")?;
    let told = player.told(alloc, act)?;
    hold_told(alloc, act, told.as_str(), want)
}
