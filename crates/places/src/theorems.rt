ghost use Rattle.places.specs.Theorems.{WalksEndWithTraces, BeginningsLeadToLive, PlacesAreSize, PlacesAreFair};

/// Holds the theorem that a list is a trace of a node of kinds 2 to 5 exactly where the node's walk ends with it.
pub fn walks_stand()
    ensures { WalksEndWithTraces }
{}

/// Holds the theorem that a list is a beginning of a node of kind 6 or 7 exactly where it leads to a live place.
pub fn beginnings_stand()
    ensures { BeginningsLeadToLive }
{}

/// Holds the theorem that a loop has as many places as its node's size says.
pub fn sizes_stand()
    ensures { PlacesAreSize }
{}

/// Holds the theorem that a table can be filled from the loop of a node of kind 6 or 7.
pub fn fairness_stands()
    ensures { PlacesAreFair }
{}
