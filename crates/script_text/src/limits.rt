//! How much one call may have.

ghost use Rattle.std.specs.Prelude.{◌≡◌, ◌+◌, length, nat_le};
ghost use Rattle.std.specs.List.{list_all};
ghost use Rattle.cm_document.specs.declared.limits.TheConstants.{MOST_VALUES, MOST_NAMES};
ghost use Rattle.cm_document.specs.ScriptRules.{mail_fits, call_fits};

use cm_document::{Call, MOST_NAMES, MOST_POINTS, MOST_VALUES, Mail, Point2, SwitchRequest};

/// Whether a call has no more than it may.
pub fn call_fits(call: &Call) -> bool
    ensures { result ≡ call_fits call.now }
{
    match call {
        Call::Send { mail, .. } => mail_fits(mail),
        Call::Switch(request) => switch_fits(request),
        _ => true,
    }
}

/// No more values than there may be; or no more points, and none with more values.
fn mail_fits(mail: &Mail) -> bool
    ensures { result ≡ mail_fits mail.now }
{
    match mail {
        Mail::Values(values) => values.as_slice().len() <= MOST_VALUES,
        Mail::Points(points) => {
            points.as_slice().len() <= MOST_POINTS && points_fit(points.as_slice())
        }
    }
}

/// No point has more values than it may.
fn points_fit(points: &[Point2]) -> bool
    ensures { result ≡ list_all (λ p. nat_le (length p.values) MOST_VALUES) points.now }
{
    points
        .iter()
        .all(|point| point.values.as_slice().len() <= MOST_VALUES)
}

/// No more names than a switch may have.
fn switch_fits(request: &SwitchRequest) -> bool
    ensures { result ≡ nat_le (length request.now.on + length request.now.off) MOST_NAMES }
{
    let on = request.on.as_slice().len();
    let off = request.off.as_slice().len();
    on <= MOST_NAMES && off <= MOST_NAMES - on
}
