ghost use Rattle.std.specs.Prelude.{◌≡◌};
ghost use Rattle.law.specs.Answers.{AnswersAreDetermined};
ghost use Rattle.law.specs.Law.{EveryRunIsLawful, OnlyTheRulesAreLawful, OneFilter};
ghost use Rattle.law.specs.Lists.{ListIsWhole, DeservingStands};
ghost use Rattle.law.specs.Order.{IsStrictOrder, IsOrderOfEvents};
ghost use Rattle.law.specs.Rules.{World};
ghost use Rattle.law.specs.States.{StatesFollow};
ghost use Rattle.law.specs.Transcripts.{ExchangesArePairs};

use event::kind::Kind;

/// The order of patterns is a strict order in which any two that differ stand, and over a strictly rising lexicon it is the order by events.
pub fn order_stands<K: Kind>() -> u8
    ensures strict { IsStrictOrder }
    ensures events { IsOrderOfEvents K.Kind.order }
{
    0
}

/// The law, whatever openings O are and stand for: every transcript that keeps the rules is lawful, and the law leaves a next no other answer than the rules do; where every next has the same filter, that is the one by which patterns are passed.
pub fn law_stands<O, K>() -> u8
    ensures lawful { (W : World O K) → EveryRunIsLawful W }
    ensures only { (W : World O K) → OnlyTheRulesAreLawful W }
    ensures one_filter { (W : World O K) → OneFilter W }
{
    0
}

/// By the rules each call has just one answer, which is computed; and a session need not remember more than a state.
pub fn rules_stand<O, K>() -> u8
    ensures determined { (W : World O K) → AnswersAreDetermined W }
    ensures followed { (W : World O K) → StatesFollow W }
    ensures paired { ExchangesArePairs O K }
{
    0
}

/// A list that is read to END, with one filter and without a skip or a raise, is exactly the patterns that deserve it, in rising order, each with its support.
pub fn list_stands<O, K>() -> u8
    ensures whole { (W : World O K) → ListIsWhole W }
    ensures deserving { (W : World O K) → DeservingStands W }
{
    0
}
