ghost use Rattle.std.specs.Prelude.{◌≡◌, true, length};
ghost use Rattle.regular.specs.Automata.{size, is_numbered};
ghost use Rattle.regular.specs.Machine.{Made};
ghost use Rattle.regular.specs.Rooted.{rooted_tree};

use crate::automaton::Automaton;
use crate::label::Label;
use crate::reading::Reading;
use crate::set::Places;
use crate::table::Rooted;
use event::kind::Kind;
use std::alloc::{AllocError, Global};

/// An expression, made ready to be asked of lists of events.
#[derive(Drop)]
pub struct Expression<K> {
    labels: Vec<Label<K>>,
    // No call reads the table: it is what the contracts mean by the expression.
    rooted: Rooted,
    automaton: Automaton,
    ghost ordered: { is_numbered (rooted_tree rooted) 0 ≡ true },
    ghost counted: { length labels.items ≡ size (rooted_tree rooted) },
    ghost made: { Made (rooted_tree rooted) (length labels.items) automaton },
}

impl<K: Kind> Expression<K> {
    ghost use Rattle.std.specs.Prelude.{◌≤◌, ◌↔◌, IfOk};
    ghost use Rattle.regular.specs.Automata.{Numbered};
    ghost use Rattle.regular.specs.Expressions.{tree_of, labels_of, meets, expression_wants, expression_barren, HasRead};
    ghost use Rattle.regular.specs.Machine.{Steps};
    ghost use Rattle.regular.specs.Members.{Below};
    ghost use Rattle.regular.specs.Regex.{In, Barren};

    /// The expression of a rooted table. Its leaves are numbered in reading order, and each number has its label.
    pub fn new(
        labels: Vec<Label<K>>,
        rooted: Rooted,
        heap: Global,
    ) -> Result<Expression<K>, AllocError>
        requires numbered { Numbered (rooted_tree rooted) 0 (length labels.items) }
        requires few { length labels.items ≤ 60 }
        ensures tree { IfOk result (λ x. tree_of x ≡ rooted_tree rooted) }
        ensures labels { IfOk result (λ x. labels_of x ≡ labels.items) }
    {
        let automaton = Automaton::new(&rooted, labels.len(), heap)?;
        Ok(Expression {
            labels,
            rooted,
            automaton,
        })
    }

    /// Whether a list is in the language.
    pub fn wanted(&self, list: &[K]) -> bool
        ensures value { result ≡ expression_wants K.Kind.order self.now list.now }
        ensures exact { (result ≡ true) ↔ In (meets K.Kind.order self.now) (tree_of self.now) list.now }
    {
        self.read(list).ended
    }

    /// Whether a list is barren: exactly where no longer list that begins with it is in the language.
    pub fn barren(&self, list: &[K]) -> bool
        ensures value { result ≡ expression_barren K.Kind.order self.now list.now }
        ensures exact { K → (result ≡ true) ↔ Barren (meets K.Kind.order self.now) (tree_of self.now) list.now }
    {
        self.read(list).ahead.is_empty()
    }

    // Reads a list of events from its start.
    fn read(&self, list: &[K]) -> Reading
        ensures { HasRead K.Kind.order self.now list.now result }
    {
        let mut reading = Reading {
            ahead: self.automaton.first,
            ended: self.automaton.empty,
        };
        for event in list {
            reading = self.step(reading, event);
        }
        reading
    }

    // Reads one event more: of the places ahead, those that it meets say what comes next.
    fn step(&self, reading: Reading, event: &K) -> Reading
        requires { Below reading.ahead (length (labels_of self.now)) }
        ensures { Steps self.now.automaton (length (labels_of self.now)) (λ p. meets K.Kind.order self.now p event.now) reading result }
    {
        let mut ahead = Places::new();
        let mut ended = false;
        for place in reading.ahead {
            if self.labels[place].meets(event) {
                ahead |= self.automaton.follow[place];
                ended |= self.automaton.last.contains(place);
            }
        }
        Reading { ahead, ended }
    }
}
