//! The plan of a catalogue, which only contracts see.
ghost use Rattle.std.specs.Prelude.{◌≡◌, List};
ghost use base.Fml.{ftrue};
ghost use Rattle.plain_heap.specs.declared.operation.Op.{Op};

use plain_heap::Plan;
use std::marker::{Model, PhantomData};

/// The operations of a catalogue, part by part. It has no bytes.
pub struct PlanTag {
    marker: PhantomData<()>,
    /// These operations, in order.
    pub ghost parts: { List (List Op) },
}

impl Model for PlanTag {
    ghost also_owns = { λ _. ftrue };
}

pub trait ReadsPlan<X> {
    ghost use Rattle.std.specs.Prelude.{List};
    ghost use Rattle.plain_heap.specs.declared.operation.Op.{Op};

    ghost parts: { X → List (List Op) };
}

impl PlanTag {
    pub fn of<X, M: ReadsPlan<X>>(x: &X) -> PlanTag
        ensures { result.parts ≡ M.parts x.now }
    {
        let _ = x;
        PlanTag {
            marker: PhantomData,
        }
    }
}

struct Own<P> {
    of: PhantomData<P>,
}

impl<P: Plan> ReadsPlan<P> for Own<P> {
    ghost parts = { λ p. P.plan p };
}

pub fn tag_of<P: Plan>(plan: &P) -> PlanTag
    ensures { result.parts ≡ P.plan plan.now }
{
    PlanTag::of::<P, Own<P>>(plan)
}

impl Drop for PlanTag {
    fn drop(self) {
        let Self { marker: _ } = self;
    }
}
