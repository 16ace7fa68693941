//! Laws of each event.

ghost use Rattle.r3_laws.specs.OfEvents.{AsksUnrecorded, TellsItsEvent};
ghost use Rattle.r3_laws.specs.OfQueues.{QueuesTell};

/// An entry tells its event.
pub fn tells_its_event()
    ensures { TellsItsEvent }
{}

/// No recorded step is asked of the outside again.
pub fn asks_unrecorded()
    ensures { AsksUnrecorded }
{}

/// What the rule of queues tells of the rows is what the machine does.
pub fn queues_tell()
    ensures { QueuesTell }
{}
