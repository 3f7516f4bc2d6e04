ghost use Rattle.std.specs.Prelude.{◌≡◌, MatchResult};
ghost use Rattle.grammar.specs.Grammar.{expression as an_expression, term as a_term, factor as a_factor, atom as an_atom};
ghost use Rattle.grammar.specs.Readings.{Onward, Read, repeat_of, Whole, NotWhole};
ghost use Rattle.grammar.specs.Stands.{GrammarStands};

use crate::mark::{Mark, ReadFault};
use crate::reader::Reader;
use regular::node::Node;
use regular::table::{Rooted, Table};
use std::alloc::Global;

/// The most brackets that may be open.
pub const MOST_OPEN: u8 = 16;

// Each reads a part from the next mark on, where so many brackets are open, and returns its node. How many is a parameter and no field: it belongs to one call, and need not be put back.
// They call each other in a cycle, so they go over plain marks.
impl Reader<'_> {
    // Reads an expression: terms, parted by bars.
    #[cycle(atom_expression_factor_term)]
    fn expression(&mut self, depth: u8) -> Result<usize, ReadFault>
        ensures onward { Onward self.old self.new }
        ensures gives { Read an_expression depth self.old self.new result }
    {
        let left = self.term(depth)?;
        let Some(Mark::Bar) = self.next() else {
            return Ok(left);
        };
        self.at += 1;
        let right = self.expression(depth)?;
        self.add(Node::Either(left, right))
    }

    // Reads a term: factors, one behind the other.
    #[cycle(atom_expression_factor_term)]
    fn term(&mut self, depth: u8) -> Result<usize, ReadFault>
        ensures onward { Onward self.old self.new }
        ensures gives { Read a_term depth self.old self.new result }
    {
        let left = self.factor(depth)?;
        let Some(Mark::Leaf | Mark::Open) = self.next() else {
            return Ok(left);
        };
        let right = self.term(depth)?;
        self.add(Node::Then(left, right))
    }

    // Reads a factor: an atom, and what stands behind it of stars, pluses and question marks.
    #[cycle(atom_expression_factor_term)]
    fn factor(&mut self, depth: u8) -> Result<usize, ReadFault>
        ensures onward { Onward self.old self.new }
        ensures gives { Read a_factor depth self.old self.new result }
    {
        let mut node = self.atom(depth)?;
        while let Some(repeated) = self.next().and_then(|mark| repeat(mark, node)) {
            node = self.add(repeated)?;
            self.at += 1;
        }
        Ok(node)
    }

    // Reads an atom: a leaf, or an expression in brackets.
    #[cycle(atom_expression_factor_term)]
    fn atom(&mut self, depth: u8) -> Result<usize, ReadFault>
        ensures onward { Onward self.old self.new }
        ensures gives { Read an_atom depth self.old self.new result }
    {
        match self.next() {
            Some(Mark::Leaf) => {
                let node = self.leaf()?;
                self.at += 1;
                Ok(node)
            }
            Some(Mark::Open) => {
                if depth >= MOST_OPEN {
                    return Err(ReadFault::Size);
                }
                self.at += 1;
                let node = self.expression(depth + 1)?;
                let Some(Mark::Close) = self.next() else {
                    return Err(ReadFault::Mark(self.at));
                };
                self.at += 1;
                Ok(node)
            }
            _ => Err(ReadFault::Mark(self.at)),
        }
    }
}

// The node that a star, a plus or a question mark makes of another.
fn repeat(mark: Mark, node: usize) -> Option<Node>
    ensures { result ≡ repeat_of mark node }
{
    match mark {
        Mark::Star => Some(Node::Star(node)),
        Mark::Plus => Some(Node::Plus(node)),
        Mark::Maybe => Some(Node::Maybe(node)),
        _ => None,
    }
}

/// Reads all the marks as one expression.
pub fn read_marks(marks: &[Mark], heap: Global) -> Result<Rooted, ReadFault>
    ensures { MatchResult result (λ e. Whole marks.now e.table.nodes.items e.root) (λ f. NotWhole marks.now f) }
{
    let nodes = Vec::new(heap);
    let mut reader = Reader {
        marks,
        at: 0,
        table: Table { nodes },
        leaves: 0,
    };
    let root = reader.expression(0)?;
    if reader.next().is_some() {
        return Err(ReadFault::Mark(reader.at));
    }
    Ok(Rooted {
        table: reader.table,
        root,
    })
}

/// The marks that are read are exactly the expressions within the limits, and a fault stands where no expression goes on or where one is too large.
pub fn grammar_stands() -> u8
    ensures { GrammarStands }
{
    0
}
