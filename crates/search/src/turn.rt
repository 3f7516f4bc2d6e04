/// What a turn of the search comes to: a pattern and its support, the child to try next, or the end.
// Three cases by name: a `ControlFlow` over a place and an `Option` would say less.
#[derive(Clone, Copy)]
pub enum Turn {
    Found(u32),
    Go(usize),
    End,
}
