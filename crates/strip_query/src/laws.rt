//! Laws of the static bound: the contracts of functions that do nothing. The statements stand in `specs/Laws.antt`.
ghost use Rattle.strip_query.specs.Laws.{BoundsHold, PartsStayNarrow, SumsStayBig};

/// The number that an expression computes is at most as far from 0 as its bound says.
pub fn bounds_hold()
    ensures { BoundsHold }
{}

/// No arithmetic of an expression that suits the kinds goes as far as 2^63.
pub fn parts_stay_narrow()
    ensures { PartsStayNarrow }
{}

/// The sum of a narrow expression over fewer than 2^62 rows is a `Big`.
pub fn sums_stay_big()
    ensures { SumsStayBig }
{}
