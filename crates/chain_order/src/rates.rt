//! In which cycles a controller is updated.

ghost use Rattle.std.specs.Prelude.{◌≡◌, ◌≤◌};
ghost use Rattle.cm_model.specs.Order.{divisor, is_due};

/// In how many cycles a controller is updated once, from the manager's rate and its own in hertz: in each where its
/// rate is 0 or at least the manager's, else in as many as the manager's rate holds its own.
pub fn divisor(manager: u32, rate: u32) -> u32
    requires { 1 ≤ manager }
    ensures { result ≡ divisor manager rate }
{
    if rate == 0 || rate >= manager {
        1
    } else {
        manager / rate
    }
}

/// Whether a controller that is updated once in so many cycles is updated in this one. Most are updated in each, where
/// no division is needed: one takes as long as thirty other instructions.
#[tactic(auto, using(crate::proofs::RateLemmas::always_due))]
pub fn due(cycle: u64, divisor: u32) -> bool
    requires { 1 ≤ divisor }
    ensures { result ≡ is_due cycle divisor }
{
    divisor == 1 || cycle % u64::from(divisor) == 0
}
