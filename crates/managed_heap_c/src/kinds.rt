//! A world of either kind is opened, lends and takes back, tells, and is closed.
ghost use Rattle.std.specs.Prelude.{◌≡◌, IfErr, IfNone, IfOk, IfSome, OnOk};
ghost use Rattle.std.specs.Bool.{OnFalse, OnTrue};
ghost use Rattle.seat_turns.specs.declared.refused.NotOpened.TheVariants.{OutOfRange};
ghost use Rattle.managed_heap_c.specs.Kinds.{Counts, FindsStop, HasAll, IsOpenedAs, LacksMutator, LacksTracer, LendsSteps, LendsTracer, Refuses, RefusesTracer, TakesBack, TakesTracer, TellsTracers};
ghost use Rattle.managed_heap_c.specs.Sizing.{AsksOwn, FitEither};

use crate::hands::AnyWorld;
use crate::own::{count_own, lend_own, take_own};
use crate::sharing::{count_shared, lend_shared, take_shared};
use crate::sizes::{CNumbers, CSizes, own_sizes, shared_sizes};
use managed_heap::{NotOpened, World};
use seat_steps::Stepper;
use seat_turns::Tracer;
use shared_heap::SharedWorld;
use std::alloc::Global;

fn open_own(alloc: Global, sizes: &CSizes) -> Result<AnyWorld, NotOpened>
    requires own { AsksOwn sizes.now }
    ensures opened { IfOk result (IsOpenedAs sizes.now) }
    ensures refused { IfErr result (λ e. e ≡ OutOfRange → FitEither sizes.now → ⊥) }
{
    match World::open(alloc, own_sizes(sizes)) {
        Ok(world) => Ok(AnyWorld::Owned(world)),
        Err(why) => Err(why),
    }
}

fn open_shared(alloc: Global, sizes: &CSizes) -> Result<AnyWorld, NotOpened>
    requires shared { sizes.now.shared ≡ 1 }
    ensures opened { IfOk result (IsOpenedAs sizes.now) }
    ensures refused { IfErr result (λ e. e ≡ OutOfRange → FitEither sizes.now → ⊥) }
{
    match SharedWorld::open(alloc, shared_sizes(sizes)) {
        Ok(world) => Ok(AnyWorld::Shared(world)),
        Err(why) => Err(why),
    }
}

impl AnyWorld {
    pub fn open(alloc: Global, sizes: &CSizes) -> Result<AnyWorld, NotOpened>
        ensures opened { IfOk result (IsOpenedAs sizes.now) }
        ensures refused { IfErr result (λ e. e ≡ OutOfRange → FitEither sizes.now → ⊥) }
    {
        if sizes.shared == 1 {
            return open_shared(alloc, sizes);
        }
        if sizes.shared == 0 && sizes.slots == 0 {
            return open_own(alloc, sizes);
        }
        Err(NotOpened::OutOfRange)
    }

    /// A mutator that nobody has, in steps.
    pub fn lend(&mut self) -> Option<Stepper>
        ensures some { IfSome result (λ s. LendsSteps s self.old self.new) }
        ensures none { IfNone result (LacksMutator self.old self.new) }
    {
        match self {
            AnyWorld::Owned(world) => lend_own(world),
            AnyWorld::Shared(world) => lend_shared(world),
        }
    }

    pub fn take_back(&mut self, stepper: Stepper) -> Result<(), Stepper>
        ensures back { OnOk result (TakesBack stepper self.old self.new) }
        ensures refused { IfErr result (λ t. Refuses stepper t self.old self.new) }
    {
        match self {
            AnyWorld::Owned(world) => take_own(world, stepper),
            AnyWorld::Shared(world) => take_shared(world, stepper),
        }
    }

    /// A tracer that nobody has.
    pub fn lend_tracer(&mut self) -> Option<Tracer>
        ensures some { IfSome result (λ t. LendsTracer t self.old self.new) }
        ensures none { IfNone result (LacksTracer self.old self.new) }
    {
        match self {
            AnyWorld::Owned(world) => world.tracer(),
            AnyWorld::Shared(world) => world.tracer(),
        }
    }

    pub fn take_tracer_back(&mut self, tracer: Tracer) -> Result<(), Tracer>
        ensures back { OnOk result (TakesTracer tracer self.old self.new) }
        ensures refused { IfErr result (λ t. (t ≡ tracer) × RefusesTracer self.old self.new) }
    {
        match self {
            AnyWorld::Owned(world) => world.take_tracer(tracer),
            AnyWorld::Shared(world) => world.take_tracer(tracer),
        }
    }

    /// One try to dismiss the tracers. False if a stop is under way.
    pub fn dismisses(&mut self) -> bool
        ensures told { OnTrue result (TellsTracers self.old self.new) }
        ensures stop { OnFalse result (FindsStop self.old self.new) }
    {
        match self {
            AnyWorld::Owned(world) => world.try_dismiss_tracers(),
            AnyWorld::Shared(world) => world.try_dismiss_tracers(),
        }
    }

    pub fn count(&mut self) -> CNumbers
        ensures counts { Counts self.old self.new result }
    {
        match self {
            AnyWorld::Owned(world) => count_own(world),
            AnyWorld::Shared(world) => count_shared(world),
        }
    }

    /// Frees the world, if all mutators and tracers are back.
    pub fn close(self) -> Result<(), AnyWorld>
        ensures closed { OnOk result (HasAll self) }
        ensures refused { IfErr result (λ w. (w ≡ self) × (HasAll self → ⊥)) }
    {
        match self {
            AnyWorld::Owned(world) => match world.close() {
                Ok(()) => Ok(()),
                Err(world) => Err(AnyWorld::Owned(world)),
            },
            AnyWorld::Shared(world) => match world.free() {
                Ok(()) => Ok(()),
                Err(world) => Err(AnyWorld::Shared(world)),
            },
        }
    }
}
