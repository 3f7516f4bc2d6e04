ghost use Rattle.std.specs.Prelude.{◌≡◌, ℕ, true, List, length, Option};
ghost use Rattle.event.specs.declared.order.Order.{Order};
ghost use Rattle.event.specs.Kinds.{Lawful};
ghost use Rattle.event.specs.Orders.{flipped, not_after, AlikeSome};
ghost use Rattle.event.specs.Rows.{or_else, written, laid};
ghost use Rattle.event.specs.declared.refusal.Refusal.TheVariants.{Event, Mark};

use crate::order::Order;
use crate::refusal::Refusal;

/// A kind of event.
pub trait Kind: Copy {
    /// The kind's number in files.
    const NUMBER: u16;

    /// How many bytes one event takes in files.
    const WIDTH: usize;

    // The two constants, for contracts of generic code.
    ghost NUMBER: { ℕ };

    ghost WIDTH: { ℕ };

    // How two events stand to each other.
    ghost order: { Self → Self → Order };

    // The event that some bytes stand for, or none.
    ghost stands: { List ℕ → Option Self };

    // An event's label.
    ghost label: { Self → List ℕ };

    // The event that a label stands for, or none.
    ghost labelled: { List ℕ → Option Self };

    /// How this event stands to another.
    fn compare(&self, other: &Self) -> Order
        ensures { result ≡ order self.now other.now };

    /// The event that some bytes stand for, or EVENT.
    fn read(bytes: &[u8]) -> Result<Self, Refusal>
        ensures { result ≡ or_else Event (stands bytes.now) };

    /// How many bytes the label has.
    fn label_length(&self) -> usize
        ensures { result ≡ length (label self.now) };

    /// Writes the label at a row's front and returns its length; where it has no room, ROOM, and the row stays.
    fn write_label(&self, row: &mut [u8]) -> Result<usize, Refusal>
        ensures answer { result ≡ written (length (label self.now)) (length row.old) }
        ensures after { row.new ≡ laid (label self.now) row.old };

    /// The event that a label stands for, or MARK.
    fn read_label(bytes: &[u8]) -> Result<Self, Refusal>
        ensures { result ≡ or_else Mark (labelled bytes.now) };

    // The laws, proved by each impl.
    ghost alike_itself: { (x : Self) → order x x ≡ Order.Alike };

    ghost exchanged: { (x y : Self) → order y x ≡ flipped (order x y) };

    ghost carried: { (x y z : Self) → not_after (order x y) ≡ true → not_after (order y z) ≡ true → not_after (order x z) ≡ true };

    ghost read_back: { (x : Self) → AlikeSome order x (labelled (label x)) };
}

/// Every kind is lawful.
pub fn kind_is_lawful<K: Kind>() -> u8
    ensures { Lawful K.Kind.order K.Kind.label K.Kind.labelled }
{
    0
}
