ghost use Rattle.std.specs.Prelude.{◌≡◌};
ghost use Rattle.event.specs.Orders.{compared, first_then, order_from};

use std::cmp::Ordering;

/// How one event stands to another. Events that are alike need not be equal, so this is not the library's order of equal values.
#[derive(Clone, Copy, Debug, PartialEq, Eq)]
pub enum Order {
    Before,
    Alike,
    After,
}

impl From<Ordering> for Order {
    ghost from_gives = { λ o r. r ≡ order_from o };

    fn from(ordering: Ordering) -> Order {
        match ordering {
            Ordering::Less => Order::Before,
            Ordering::Equal => Order::Alike,
            Ordering::Greater => Order::After,
        }
    }
}

/// Compares two numbers.
pub fn compare_numbers(a: u16, b: u16) -> Order
    ensures { result ≡ compared a b }
{
    a.cmp(&b).into()
}

impl Order {
    /// This answer, or the next one where this is alike.
    pub fn then(self, next: Order) -> Order
        ensures { result ≡ first_then self next }
    {
        match self {
            Order::Alike => next,
            Order::Before | Order::After => self,
        }
    }
}
