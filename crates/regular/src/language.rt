ghost use Rattle.regular.specs.Theorems.{AcceptsTheLanguage, AutomatonTakes, AutomatonSticks, LabelsTaken, LabelsStick};

use event::kind::Kind;

/// The test and the automaton of an expression take exactly its language, and the automaton is stuck exactly where no extension is in it.
pub fn language_stands<A, K: Kind>() -> u8
    ensures accepted { AcceptsTheLanguage A K }
    ensures taken { AutomatonTakes K }
    ensures stuck { AutomatonSticks K }
    ensures labels { LabelsTaken K.Kind.order }
    ensures labels_stuck { LabelsStick K.Kind.order }
{
    0
}
