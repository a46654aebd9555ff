//! Numbers that have a least, each at its key.

ghost use Rattle.std.specs.Prelude.{◌≡◌, not, map, find, int_le, option_map, option_copied};
ghost use Rattle.cm_document.specs.Params.{at_least};
ghost use Rattle.cm_document.specs.Valid.{first_below};

/// The key of the first of these that is below its least: each has its key, its least and its number.
pub(crate) fn first_below(limits: &[(&'static str, i64, i64)]) -> Option<&'static str>
    ensures { option_map (λ key. key.now) result
        ≡ first_below (map (λ limit. at_least limit.0.now limit.1 limit.2) limits.now) }
{
    match first_low(limits) {
        Some(limit) => Some(limit.0),
        None => None,
    }
}

fn first_low<'a>(limits: &'a [(&'static str, i64, i64)]) -> Option<&'a (&'static str, i64, i64)>
    ensures { option_copied result ≡ find (λ limit. not (int_le limit.1 limit.2)) limits.now }
{
    limits.iter().find(|limit| is_low(limit.1, limit.2))
}

fn is_low(least: i64, number: i64) -> bool
    ensures { result ≡ not (int_le least number) }
{
    !(least <= number)
}
