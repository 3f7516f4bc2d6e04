ghost use Rattle.trail.specs.Projection.{ProjectionStands};

use event::kind::Kind;

/// The projection grows event by event, has as many entries as tapes include the pattern, and fits the room of its levels.
#[tactic(auto, using(crate::proofs::Projections::projection_stands))]
pub fn projection_stands<K: Kind>() -> u8
    ensures { ProjectionStands K.Kind.order }
{
    0
}
