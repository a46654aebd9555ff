//! The hardware at work, as one object that owns it.

use crate::hardware::Unit;
use loan_board::Board;
use std::marker::Model;

/// The components of a robot, and the board of all interfaces.
#[derive(Debug, Drop)]
pub struct ResourceManager {
    pub(crate) units: Vec<Unit>,
    pub(crate) board: Board,
    /// The component of each place of the board; none where a controller exports the interface.
    pub(crate) places: Vec<Option<u32>>,
    /// The place of the first command interface: those of all components follow their state interfaces.
    pub(crate) first_command: u32,
}

impl Model for ResourceManager {
    ghost use Rattle.cm_hardware.specs.Wiring.{Wired, IsManaged};

    ghost Value = { Wired };

    ghost view = { λ m. record { components = m.units.items; loans = m.board; places = m.places.items } };

    ghost invariant = { λ m. IsManaged m.first_command
        (record { components = m.units.items; loans = m.board; places = m.places.items }) };
}
