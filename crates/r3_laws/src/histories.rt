//! Laws of made histories.

ghost use Rattle.r3_laws.specs.OfHistories.{CommitsOnce, ExpectsAll, FormsWhatItReaches, MakesWhatItReaches, RepeatsJustWhatItMade, RepeatsWhatItMade};

/// Every history that is reached from the empty one, over restarts and crashes, is made. It is formed
/// too, where the functions and the answers of the outside keep the limits of entries.
pub fn makes_what_it_reaches()
    ensures made { MakesWhatItReaches }
    ensures formed { FormsWhatItReaches }
{}

/// On a made history each step is written once, a transaction's by the entry that its body gives.
pub fn commits_once()
    ensures { CommitsOnce }
{}

/// No turn on a made history is unexpected.
pub fn expects_all()
    ensures { ExpectsAll }
{}

/// The machine on a made history's own events makes it again, and on a formed history's just where it was made.
pub fn repeats_what_it_made()
    ensures made { RepeatsWhatItMade }
    ensures formed { RepeatsJustWhatItMade }
{}
