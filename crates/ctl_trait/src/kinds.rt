//! What a caller may ask of parameters before a call.

ghost use Rattle.std.specs.Prelude.{◌≡◌};
ghost use Rattle.std.specs.List.{list_all};
ghost use Rattle.cm_model.specs.Kinds.{publishes, takes, takes_none, is_for_claims};

use cm_document::{CtlKind, Mail, Params, Point2};
use fixed_num::Fx;

/// Whether a controller of this kind publishes what it reads.
pub fn publishes(kind: CtlKind) -> bool
    ensures { result ≡ publishes kind }
{
    matches!(kind, CtlKind::Broadcaster)
}

/// Whether a controller with these parameters takes no mail at all.
pub fn takes_none(params: &Params) -> bool
    ensures { result ≡ takes_none params.now }
{
    match params {
        Params::Broadcaster { .. } => true,
        Params::Mock { outs, .. } => *outs == 0,
        _ => false,
    }
}

/// Whether the mail fits a controller with these parameters.
pub fn takes(params: &Params, mail: &Mail) -> bool
    ensures { result ≡ takes params.now mail.now }
{
    match (params, mail) {
        (Params::Trajectory { .. }, Mail::Points(points)) => are_for_claims(
            params,
            points.as_slice(),
        ),
        (Params::Trajectory { .. }, Mail::Values(_)) | (_, Mail::Points(_)) => false,
        (_, Mail::Values(values)) => !takes_none(params)
            && is_for_claims(params, values.as_slice()),
    }
}

/// Whether each point has a value for each claim.
fn are_for_claims(params: &Params, points: &[Point2]) -> bool
    ensures { result ≡ list_all (λ p. is_for_claims params.now p.values) points.now }
{
    points
        .iter()
        .all(|point| is_for_claims(params, point.values.as_slice()))
}

/// Whether there is a value for each claim.
fn is_for_claims(params: &Params, values: &[Fx]) -> bool
    ensures { result ≡ is_for_claims params.now values.now }
{
    values.len() == params.shape().claims
}
