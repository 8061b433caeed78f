//! What C keeps: the address of what lies behind a handle.
ghost use Rattle.managed_heap_c.specs.declared.hands.Hand.{Hand};
ghost use Rattle.managed_heap_c.specs.declared.hands.TracerHand.{TracerHand};
ghost use Rattle.managed_heap_c.specs.declared.hands.Whole.{Whole};
ghost use Rattle.managed_heap_c.specs.Owned.{hand_coded, hand_owned, tracer_coded, tracer_owned, whole_coded, whole_owned};

use std::marker::Model;

/// The handle of a mutator.
#[repr(C)]
pub struct MutatorHandle {
    pub(crate) at: *mut u8,
    pub ghost hand: { Hand } by { hand_coded },
}

impl Model for MutatorHandle {
    ghost also_owns = { λ h. hand_owned h.at h.hand };
}

/// The handle of a tracer.
#[repr(C)]
pub struct TracerHandle {
    pub(crate) at: *mut u8,
    pub ghost hand: { TracerHand } by { tracer_coded },
}

impl Model for TracerHandle {
    ghost also_owns = { λ h. tracer_owned h.at h.hand };
}

/// The handle of a world.
#[repr(C)]
pub struct WorldHandle {
    pub(crate) at: *mut u8,
    pub ghost whole: { Whole } by { whole_coded },
}

impl Model for WorldHandle {
    ghost also_owns = { λ h. whole_owned h.at h.whole };
}
