//! The controllers: each is its plain part, with what was set of it while it runs.

pub use differential::DifferentialCtl;
pub use limiter::LimiterCtl;
pub use transmission::TransmissionCtl;

mod differential;
mod led;
mod limiter;
mod paced;
mod transmission;
mod wanted;
