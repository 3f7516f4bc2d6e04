ghost use Rattle.std.specs.Prelude.{◌≡◌, ℕ, ◌<◌, ◌↔◌, ◌==◌, IsTrue, MatchOption};
ghost use Rattle.std.specs.Iterator.{at_most};
ghost use Rattle.regular.specs.Members.{member, Empty, IsUnion, TakesOut};

use std::ops::{BitOr, BitOrAssign};

/// A set of places below 64, with a bit for each.
#[derive(Clone, Copy, Debug, PartialEq, Eq)]
pub(crate) struct Places {
    bits: u64,
}

impl Places {
    // The set with no place.
    pub(crate) fn new() -> Places
        ensures { Empty result }
    {
        Places { bits: 0 }
    }

    // The one place alone.
    pub(crate) fn only(place: usize) -> Places
        requires { place < 64 }
        ensures { (i : ℕ) → member result i ≡ (place == i) }
    {
        Places { bits: 1 << place }
    }

    pub(crate) fn contains(self, place: usize) -> bool
        requires { place < 64 }
        ensures { result ≡ member self place }
    {
        self.bits >> place & 1 == 1
    }

    pub(crate) fn is_empty(self) -> bool
        ensures { IsTrue result ↔ Empty self }
    {
        self.bits == 0
    }
}

impl BitOr for Places {
    type Output = Places;

    ghost bitor_gives = { IsUnion };

    fn bitor(self, other: Places) -> Places {
        Places {
            bits: self.bits | other.bits,
        }
    }
}

impl BitOrAssign for Places {
    ghost bitor_assign_gives = { IsUnion };

    fn bitor_assign(&mut self, other: Places) {
        self.bits |= other.bits;
    }
}

impl IntoIterator for Places {
    type Item = usize;

    type IntoIter = Members;

    ghost into_iter_gives = { λ places members. members.left ≡ places };

    fn into_iter(self) -> Members {
        Members { left: self }
    }
}

// The places of a set that are left to go over, lowest first.
#[derive(Drop)]
pub(crate) struct Members {
    left: Places,
}

impl Iterator for Members {
    type Item = usize;

    ghost next_gives = { λ old place new. MatchOption place (Empty old.left) (TakesOut old.left new.left) };

    ghost remaining = { λ members. at_most members.left.bits };

    fn next(&mut self) -> Option<usize> {
        if self.left.is_empty() {
            return None;
        }
        let lowest = self.left.bits.trailing_zeros() as usize;
        self.left.bits ^= 1 << lowest;
        Some(lowest)
    }
}
