//! Tests of switch plans, scene by scene: a page has for each case the loaded controllers, and line by line a request
//! with what must be told of its plan.
#![tactic(auto)]

#[cfg(test)]
mod causes;
#[cfg(test)]
mod efforts;
#[cfg(test)]
mod groups;
#[cfg(test)]
mod largest;
#[cfg(test)]
mod planned;
#[cfg(test)]
mod requests;
#[cfg(test)]
mod restarts;
#[cfg(test)]
mod scenes;
