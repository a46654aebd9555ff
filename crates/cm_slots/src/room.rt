//! Room for the states that one controller is given.

ghost use Rattle.std.specs.Prelude.{◌≡◌, ◌<◌, length, IfOk, All};
ghost use Rattle.cm_model.specs.Claims.{number_in};
ghost use Rattle.cm_slots.specs.Connections.{numbers_at, widest};

use cm_document::MOST_STATES;
use cm_hardware::ResourceManager;
use fixed_num::{Fx, Memory, Value};
use std::alloc::Global;
use std::marker::Model;

/// Room for the states of one controller after the other. What stands in it says nothing. Contracts see how many there
/// is room for.
#[derive(Debug, Drop)]
pub struct Room {
    pub(crate) states: Vec<Fx>,
}

impl Model for Room {
    ghost use Rattle.std.specs.Prelude.{ℕ, length};

    ghost Value = { ℕ };

    ghost view = { λ r. length r.states.items };
}

impl Room {
    /// Room for any controller of a valid description.
    pub fn make(alloc: Global) -> Result<Room, Memory>
        ensures { IfOk result (λ room. room ≡ widest) }
    {
        Ok(Room {
            states: vec![in alloc; Fx::ZERO; MOST_STATES]?,
        })
    }
}

/// The numbers that the interfaces at these places hold.
pub(crate) fn read_numbers(hardware: &ResourceManager, places: &[u32], states: &mut [Fx])
    requires there { All (λ place. place < length hardware.now.loans) places.now }
    requires room { length states.old ≡ length places.now }
    ensures { states.new ≡ numbers_at hardware.now.loans places.now }
{
    for i in 0..places.len() {
        states[i] = number_in(hardware.value(places[i]));
    }
}

/// The number that a value is; Unset stands for 0.
fn number_in(value: Value) -> Fx
    ensures { result ≡ number_in value }
{
    match value {
        Value::Unset => Fx::ZERO,
        Value::Num(number) => number,
    }
}
