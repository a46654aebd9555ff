//! Tests of the public calls of controllers, and of the stock of their blanks, call by call; and of transmissions and
//! limiters, with a limiter beside a search of every step.
#![tactic(auto)]

#[cfg(test)]
mod faults;
#[cfg(test)]
mod gears;
#[cfg(test)]
mod kinds;
#[cfg(test)]
mod pairs;
#[cfg(test)]
mod runs;
#[cfg(test)]
mod searched;
#[cfg(test)]
mod stocks;
