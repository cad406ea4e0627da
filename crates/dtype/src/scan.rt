// The predicates that look into a type, as scans of its kinds: a valid type's kinds tell as much as a walk would.
ghost use Rattle.std.specs.Prelude.{◌≡◌, ℕ, Bool};
ghost use Rattle.std.specs.List.{list_any};
ghost use Rattle.dtype.specs.Predicate.{is_unknown};
ghost use Rattle.dtype.specs.Scan.{Tests, is_list_kind, is_logical_kind};

use crate::kind::{is_temporal, is_unknown};
use flat::kind::Kind;

// Whether a test holds of one of the kinds. Without an early exit the loop is vectorised.
pub fn any<F: Fn(u8) -> bool>(kinds: &[u8], holds: F) -> bool
    requires { F.IsAlwaysCallable holds }
    ensures { (p : ℕ → Bool) → Tests (F.post holds) p → result ≡ list_any p kinds.now }
{
    let mut found = false;
    for &k in kinds {
        found |= holds(k);
    }
    found
}

pub fn contains_unknown(kinds: &[u8]) -> bool
    ensures { result ≡ list_any is_unknown kinds.now }
{
    any(kinds, is_unknown)
}

#[tactic(auto, unfolding(crate::specs::Match::among, crate::specs::Scan::is_list_kind))]
pub fn contains_list(kinds: &[u8]) -> bool
    ensures { result ≡ list_any is_list_kind kinds.now }
{
    any(kinds, |k| k == Kind::LIST)
}

#[tactic(auto, unfolding(crate::specs::Match::among, crate::specs::Scan::is_logical_kind))]
pub fn is_logical(kinds: &[u8]) -> bool
    ensures { result ≡ list_any is_logical_kind kinds.now }
{
    any(kinds, |k| is_temporal(k) || k == Kind::DECIMAL)
}
