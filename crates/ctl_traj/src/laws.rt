//! Laws of trajectories in the field's words: each is the contract of a function that does nothing.

ghost use Rattle.std.specs.Prelude.{◌≡◌, ◌<◌, ◌≤◌, ℕ, ℤ, List, ◌∷◌};
ghost use Rattle.cm_document.specs.declared.call.Point2.{Point2};
ghost use Rattle.cm_model.specs.Ways.{last_point, led};
ghost use Rattle.ctl_traj.specs.Between.{GoesBetween, AreNumbers, point_at_start};

/// Before its last point's time a trajectory is between two points that follow one another, the one whose time has come
/// and the one that is to come: each output lies between their values. The first of all is where it was at the start.
pub fn it_goes_from_point_to_point()
    ensures { (t : ℕ) (hold from : List ℤ) (p : Point2) (ps : List Point2) → AreNumbers (point_at_start from ∷ p ∷ ps)
        → t < (last_point p ps).at_us → GoesBetween t (point_at_start from ∷ p ∷ ps) (led t hold from (p ∷ ps)) }
{}

/// From its last point's time on, a trajectory gives that point's values.
pub fn it_ends_at_its_last_point()
    ensures { (t : ℕ) (hold from : List ℤ) (p : Point2) (ps : List Point2) → (last_point p ps).at_us ≤ t
        → led t hold from (p ∷ ps) ≡ (last_point p ps).values }
{}
