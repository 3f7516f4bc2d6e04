ghost use Rattle.std.specs.Prelude.{◌≡◌, ℕ, ◌<◌, ◌≤◌, ◌&&◌, ◌||◌, length};
ghost use Rattle.regular.specs.Automata.{takes_empty, is_first, is_last, is_follow};
ghost use Rattle.regular.specs.Members.{member, behind};
ghost use Rattle.regular.specs.Trees.{Falling, Placed, reach, place, node_tree, tree};

use crate::node::Node;
use crate::set::Places;

/// A table of nodes, of which each stands on smaller numbers, and of leaves with numbers below 60.
#[derive(Drop)]
pub struct Table {
    pub nodes: Vec<Node>,
    ghost falls: { Falling nodes.items },
    ghost placed: { Placed nodes.items },
}

/// A table with the node of a whole expression.
#[derive(Drop)]
pub struct Rooted {
    pub table: Table,
    pub root: usize,
    ghost within: { root < length table.nodes.items },
}

impl Table {
    // Each asks for a node of the table: a borrowed node with this as its invariant would be made anew, and the bound shown, for each node below it.

    // The node n.
    fn node(&self, n: usize) -> Node
        requires { n < length self.now.nodes.items }
        ensures stands { tree self.now.nodes.items n ≡ node_tree (tree self.now.nodes.items) result }
        ensures falls { reach result ≤ n }
        ensures placed { place result < 60 }
    {
        self.nodes[n]
    }

    // Whether the empty list is in the language of the node n.
    pub(crate) fn takes_empty(&self, n: usize) -> bool
        requires { n < length self.now.nodes.items }
        ensures { result ≡ takes_empty (tree self.now.nodes.items n) }
    {
        match self.node(n) {
            Node::Leaf(_) => false,
            Node::Then(a, b) => self.takes_empty(a) && self.takes_empty(b),
            Node::Either(a, b) => self.takes_empty(a) || self.takes_empty(b),
            Node::Plus(a) => self.takes_empty(a),
            Node::Star(_) | Node::Maybe(_) => true,
        }
    }

    // The places that a list of the language of the node n can begin with.
    pub(crate) fn first(&self, n: usize) -> Places
        requires { n < length self.now.nodes.items }
        ensures { (p : ℕ) → member result p ≡ is_first (tree self.now.nodes.items n) p }
    {
        match self.node(n) {
            Node::Leaf(p) => Places::only(p),
            Node::Then(a, b) if self.takes_empty(a) => self.first(a) | self.first(b),
            Node::Either(a, b) => self.first(a) | self.first(b),
            Node::Then(a, _) | Node::Star(a) | Node::Plus(a) | Node::Maybe(a) => self.first(a),
        }
    }

    // The places that a list of the language of the node n can end with: a function of its own, and not `first` with a flag for the side.
    pub(crate) fn last(&self, n: usize) -> Places
        requires { n < length self.now.nodes.items }
        ensures { (p : ℕ) → member result p ≡ is_last (tree self.now.nodes.items n) p }
    {
        match self.node(n) {
            Node::Leaf(p) => Places::only(p),
            Node::Then(a, b) if self.takes_empty(b) => self.last(b) | self.last(a),
            Node::Either(a, b) => self.last(a) | self.last(b),
            Node::Then(_, a) | Node::Star(a) | Node::Plus(a) | Node::Maybe(a) => self.last(a),
        }
    }

    // Adds the steps within the node n: to each place, the places that may stand right behind it.
    // The bound on the row stands here and at `link`: a struct of the row would hold it, and ask for it where it is made.
    pub(crate) fn follows(&self, n: usize, follow: &mut [Places])
        requires within { n < length self.now.nodes.items }
        requires few { length follow.old ≤ 60 }
        ensures { (p q : ℕ) → p < length follow.old → behind follow.new p q ≡ (behind follow.old p q || is_follow (tree self.now.nodes.items n) p q) }
    {
        match self.node(n) {
            Node::Leaf(_) => {}
            Node::Then(a, b) => {
                self.follows(a, follow);
                self.follows(b, follow);
                link(follow, self.last(a), self.first(b));
            }
            Node::Either(a, b) => {
                self.follows(a, follow);
                self.follows(b, follow);
            }
            Node::Star(a) | Node::Plus(a) => {
                self.follows(a, follow);
                link(follow, self.last(a), self.first(a));
            }
            Node::Maybe(a) => self.follows(a, follow),
        }
    }
}

// Lets each place of `from` be followed by those of `to`.
fn link(follow: &mut [Places], from: Places, to: Places)
    requires { length follow.old ≤ 60 }
    ensures { (p q : ℕ) → p < length follow.old → behind follow.new p q ≡ (behind follow.old p q || (member from p && member to q)) }
{
    for (place, behind) in follow.iter_mut().enumerate() {
        if from.contains(place) {
            *behind |= to;
        }
    }
}
