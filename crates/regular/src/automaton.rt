ghost use Rattle.std.specs.Prelude.{◌≤◌, IfOk};
ghost use Rattle.regular.specs.Machine.{Made};
ghost use Rattle.regular.specs.Rooted.{rooted_tree};

use crate::set::Places;
use crate::table::Rooted;
use std::alloc::{AllocError, Global};

/// The automaton of an expression, whose places are its leaves: where a list may begin, where it may end, whether it may be empty, and which places may stand behind each.
#[derive(Drop)]
pub struct Automaton {
    pub(crate) first: Places,
    pub(crate) last: Places,
    pub(crate) empty: bool,
    pub(crate) follow: Vec<Places>,
}

impl Automaton {
    // The automaton of an expression, with some places.
    pub(crate) fn new(rooted: &Rooted, count: usize, heap: Global) -> Result<Automaton, AllocError>
        requires { count ≤ 60 }
        ensures { IfOk result (λ a. Made (rooted_tree rooted.now) count a) }
    {
        let Rooted { table, root } = rooted;
        let mut follow = vec![in heap; Places::new(); count]?;
        table.follows(*root, &mut follow);
        Ok(Automaton {
            first: table.first(*root),
            last: table.last(*root),
            empty: table.takes_empty(*root),
            follow,
        })
    }
}
