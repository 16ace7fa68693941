//! Laws of what every event keeps.

ghost use Rattle.r3_laws.specs.OfStates.{BeginsValid, EntersLight, EntersWhatFollows, EntersWithinLimits, KeepsOpen, KeepsValid, LightFits};

/// Every event keeps the open snapshots those of workflows that wait for their transactions.
pub fn keeps_open()
    ensures { KeepsOpen }
{}

/// The entry of an event that fits may follow a formed history, and is within the limits of entries.
pub fn enters_what_follows()
    ensures follows { EntersWhatFollows }
    ensures limits { EntersWithinLimits }
{}

/// The entry of an event that fits is light, and a light entry within the limits has a payload with room.
pub fn enters_light()
    ensures enters { EntersLight }
    ensures payload { LightFits }
{}

/// Every event that fits keeps a state valid, and the first program makes the empty state valid.
pub fn keeps_valid()
    ensures keeps { KeepsValid }
    ensures begins { BeginsValid }
{}
