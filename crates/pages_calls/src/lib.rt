//! What the crates of tests share: robots as descriptions, calls of sessions in words, what their replies tell, and
//! stocks of every kind.
#![tactic(auto)]

pub mod calls;
pub mod described;
pub mod replies;
pub mod robots;
pub mod stocks;
