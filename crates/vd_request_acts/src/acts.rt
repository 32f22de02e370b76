//! The acts of placing a request, against those that a history has for it.

ghost use Rattle.vd_request_acts.specs.Laws.{StandsAlike, StayAlike, PlacedDirect, PlacedListed, TakesBackOne, TakesBackBoth};

/// What is written twice, or late, comes to what is written once; and buffers that were made can be taken back.
pub fn request_acts()
    ensures alike { StandsAlike }
    ensures stay { StayAlike }
    ensures direct { PlacedDirect }
    ensures listed { PlacedListed }
    ensures one_back { TakesBackOne }
    ensures both_back { TakesBackBoth }
{}
