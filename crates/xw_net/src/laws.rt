//! Laws about the region of an edit, and about the conditions of settling.
ghost use Rattle.xw_net.specs.RegionLaws.{LeastRegionExists, LeastRegionBounds};
ghost use Rattle.xw_net.specs.Settling.{ToldIsChange, ToldCanSettle, RoomIsKept, RoomIsReserved};

/// Among the closed sets of lights there is a least one.
pub fn least_region_exists()
    ensures { LeastRegionExists }
{}

/// Being within the cost of every closed set is the same as being within the cost of the least one.
pub fn least_region_bounds()
    ensures { LeastRegionBounds }
{}

/// How the caller of a net meets the conditions of `settle` and `revive`. It has to know the edit, the state before it, and
/// that the change has the cells with their entries, the lights, the word and the lengths. All else follows, but for the
/// room, which an edit needs only if it changes lights or adds a new word.
pub fn told_edits_can_be_settled()
    ensures change { ToldIsChange }
    ensures conditions { ToldCanSettle }
    ensures kept { RoomIsKept }
    ensures reserved { RoomIsReserved }
{}
