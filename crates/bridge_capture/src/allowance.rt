//! Allowance: the number of octets that a source or sink in memory moves before it fails.
ghost use Rattle.std.specs.Prelude.{◌≡◌, ◌≢◌, ◌≤◌, ◌<◌, ◌-◌, ◌⊎◌, Some, true, false, option_map};
ghost use Rattle.std.specs.Option.{ForSome};

/// Whether a source or sink in memory fails to move `count` octets: it has failed before, or its allowance is 0 and `count` isn't. `None`
/// is an unlimited allowance.
///
/// `SliceSource::read` and `VecSink::write` call it.
pub(crate) fn is_failing(is_broken: bool, allowance: Option<usize>, count: usize) -> bool
    ensures over { result ≡ true → (is_broken ≡ true) ⊎ (allowance ≡ Some 0) }
    ensures sound { result ≡ false → is_broken ≡ false }
    ensures more { result ≡ false → 0 < count → allowance ≢ Some 0 }
{
    match allowance {
        Some(left) => is_broken || (left == 0 && count > 0),
        None => is_broken,
    }
}

/// Returns the number of octets, of `count`, that a source or sink moves within its allowance; `count` if the allowance is `None`.
/// `SliceSource::read` and `VecSink::write` call it.
pub(crate) fn allowed_octets(allowance: Option<usize>, count: usize) -> usize
    ensures few { result ≤ count }
    ensures within { ForSome allowance (λ left. result ≤ left) }
    ensures some { allowance ≢ Some 0 → 0 < count → 0 < result }
{
    match allowance {
        Some(left) => count.min(left),
        None => count,
    }
}

/// Returns the allowance that remains after `count` octets were moved; `None` stays unlimited. `SliceSource::read` and `VecSink::write`
/// call it.
pub(crate) fn remaining_allowance(allowance: Option<usize>, count: usize) -> Option<usize>
    requires { ForSome allowance (λ left. count ≤ left) }
    ensures { result ≡ option_map (λ left. left - count) allowance }
{
    match allowance {
        Some(left) => Some(left - count),
        None => None,
    }
}
