//! The names of markers.

use cj_model::Name;
use std::cmp::Ordering;

/// The name of a marker, in the order of its bytes.
#[derive(Drop)]
pub struct MarkerName {
    pub name: Name,
}

impl PartialEq for MarkerName {
    ghost use Rattle.std.specs.Ordering.{eq_by_cmp};
    ghost use Rattle.std.specs.Cmp.{partial_equiv_from_equiv, eq_by_cmp_equiv};
    ghost use Rattle.cj_recovery.specs.Proving.MarkerOrder.{marker_cmp, marker_total};

    ghost eq = { λ x y. eq_by_cmp marker_cmp x y };

    ghost laws = { partial_equiv_from_equiv (eq_by_cmp_equiv marker_total) };

    fn eq(&self, other: &MarkerName) -> bool {
        matches!(self.cmp(other), Ordering::Equal)
    }
}

impl Eq for MarkerName {
    ghost use Rattle.std.specs.Cmp.{eq_by_cmp_equiv};
    ghost use Rattle.cj_recovery.specs.Proving.MarkerOrder.{marker_total};

    ghost laws = { eq_by_cmp_equiv marker_total };
}

impl PartialOrd for MarkerName {
    ghost use Rattle.std.specs.Prelude.{Some, refl};
    ghost use Rattle.std.specs.Cmp.{partial_order_from_agreeing_total};
    ghost use Rattle.cj_recovery.specs.Proving.MarkerOrder.{marker_cmp, marker_total};

    ghost partial_cmp = { λ x y. Some (marker_cmp x y) };

    ghost laws = { partial_order_from_agreeing_total (λ x y. marker_cmp x y) marker_total (λ x y. refl) (λ x y. refl) };

    fn partial_cmp(&self, other: &MarkerName) -> Option<Ordering> {
        Some(self.cmp(other))
    }
}

impl Ord for MarkerName {
    ghost use Rattle.std.specs.Prelude.{refl};
    ghost use Rattle.cj_recovery.specs.Proving.MarkerOrder.{marker_cmp, marker_total};

    ghost cmp = { marker_cmp };

    ghost total = { marker_total };

    ghost matches_partial_cmp = { λ x y. refl };

    ghost matches_eq = { λ x y. refl };

    fn cmp(&self, other: &MarkerName) -> Ordering {
        self.name.as_slice().cmp(other.name.as_slice())
    }
}
