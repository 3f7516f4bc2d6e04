ghost use Rattle.std.specs.Prelude.{◌≡◌, ◌<◌, ◌≤◌, length, slice_get, OnSome, MatchResult};
ghost use Rattle.regular.specs.Trees.{reach, place, Grown};
ghost use Rattle.regular.specs.declared.node.Node.TheVariants.{Leaf};

use crate::mark::{Mark, ReadFault};
use regular::node::Node;
use regular::table::Table;

/// The most leaves of an expression.
pub const MOST_LEAVES: usize = 60;

// Marks and the place of the next, with what is written of those before it: the table, and how many leaves it has.
#[derive(Drop)]
pub(crate) struct Reader<'m> {
    pub(crate) marks: &'m [Mark],
    pub(crate) at: usize,
    pub(crate) table: Table,
    pub(crate) leaves: usize,
    ghost within: { at ≤ length marks.now },
}

impl Reader<'_> {
    ghost use Rattle.grammar.specs.Readings.{Added, LeafAdded, NoRoom, NoLeaf};

    // The next mark.
    pub(crate) fn next(&self) -> Option<Mark>
        ensures value { result ≡ slice_get self.now.marks.now self.now.at }
        ensures inside { OnSome result (self.now.at < length self.now.marks.now) }
    {
        self.marks.get(self.at).copied()
    }

    // Adds a node that is no leaf, and returns its number.
    pub(crate) fn add(&mut self, node: Node) -> Result<usize, ReadFault>
        requires below { reach node ≤ length self.old.table.nodes.items }
        requires small { place node < 60 }
        ensures marks { self.new.marks.now ≡ self.old.marks.now }
        ensures at { self.new.at ≡ self.old.at }
        ensures leaves { self.new.leaves ≡ self.old.leaves }
        ensures grown { Grown self.old.table.nodes.items self.new.table.nodes.items }
        ensures added { MatchResult result (λ n. Added self.new.table.nodes.items n node) (λ f. NoRoom f) }
    {
        // A push through `self` has no proof yet, as the reader holds a reference.
        let table = &mut self.table;
        let number = table.nodes.len();
        table.nodes.push(node)?;
        Ok(number)
    }

    // Adds the next leaf, and returns its number.
    pub(crate) fn leaf(&mut self) -> Result<usize, ReadFault>
        ensures marks { self.new.marks.now ≡ self.old.marks.now }
        ensures at { self.new.at ≡ self.old.at }
        ensures grown { Grown self.old.table.nodes.items self.new.table.nodes.items }
        ensures added { MatchResult result (λ n. LeafAdded self.old.leaves self.new.leaves self.new.table.nodes.items n) (λ f. NoLeaf self.old.leaves f) }
    {
        if self.leaves >= MOST_LEAVES {
            return Err(ReadFault::Size);
        }
        let number = self.add(Node::Leaf(self.leaves))?;
        self.leaves += 1;
        Ok(number)
    }
}
