/// A node of an expression: a leaf with its number in reading order, or a node over one or two others.
// the others go by their numbers in a table and no boxes, as the functions over nodes go down by the numbers
#[derive(Clone, Copy, Debug, PartialEq, Eq)]
pub enum Node {
    Leaf(usize),
    Then(usize, usize),
    Either(usize, usize),
    Star(usize),
    Plus(usize),
    Maybe(usize),
}
