//! A hash map with chains, whose every change is one exchange.
//!
//! The map is an object whose references are rows, and a row's references are chains of entries. An entry's value is
//! its key; its reference 0 is the next entry, and its reference 1 the object kept under the key. An entry of a chain
//! never changes: whoever changes a key makes anew what stands before its entry, and puts the new chain in the old
//! one's place by an exchange. So each change happens at one moment, and a reader finds a chain as it was at one
//! moment.
ghost use Rattle.std.specs.Arc.{arc_value};
ghost use Rattle.std.specs.Prelude.{◌≡◌, ◌<◌, ◌≤◌, IfErr, IfNone, IfOk, IfSome, IsFalse, IsTrue, is_none, if◌then◌else◌};
ghost use Rattle.mark_core.specs.Steps.MutatorSteps.{seat_variable as word_in};
ghost use Rattle.gc_table.specs.Seats.{state_of};
ghost use Rattle.shared_heap.specs.Calls.{field_count_of};
ghost use Rattle.shared_heap.specs.declared.mutator.Place.TheVariants.{Inside};
ghost use Rattle.example_structures.specs.Changes.{ChangesNone, IsTold};
ghost use Rattle.example_structures.specs.Making.{Lays};
ghost use Rattle.example_structures.specs.Maps.{Renews, width_of};
ghost use Rattle.example_structures.specs.Refusing.{GivenUp, IsFor, IsRefused};

use crate::calls::{copy, forget, get, is_nil, lay, make, pass, see};
use crate::chain::{CHANGED, FOUND, LOOKED, MADE, NOTHING, is_expected, let_go, renew, seek};
use crate::hands::{CALLERS, OWN, SEEN, begin};
use shared_heap::{Refused, SharedMutator};
use std::sync::Wait;

/// The map that a variable refers to, with its numbers of rows and of chains in each.
#[derive(Clone, Copy, Debug, PartialEq, Eq, Drop)]
pub struct SharedMap {
    map: u8,
    rows: u8,
    chains: u8,
    /// The greater number, at least two.
    width: u8,
    ghost some: { (map < 20) × (0 < rows) × (rows ≤ width) × (0 < chains) × (chains ≤ width) × (2 ≤ width) × (width ≤ 16) },
}

impl SharedMap {
    /// The map of this variable (0 to 19), with 1 to 16 rows of 1 to 16 chains each; None if out of range. Objects
    /// need as many references as the greater number, at least two.
    pub fn at(map: u8, rows: u8, chains: u8) -> Option<SharedMap>
        ensures some { IfSome result (λ r. (r.map ≡ map) × (r.rows ≡ rows) × (r.chains ≡ chains) × (r.width ≡ width_of rows chains)) }
        ensures none { IfNone result ((map < 20) × (0 < rows) × (rows ≤ 16) × (0 < chains) × (chains ≤ 16) → ⊥) }
    {
        if map >= CALLERS || rows == 0 || rows > 16 || chains == 0 || chains > 16 {
            return None;
        }
        Some(SharedMap {
            map,
            rows,
            chains,
            width: width(rows, chains),
        })
    }

    fn place_of(self, key: u32) -> (u8, u8)
        ensures row { result.0 < self.rows }
        ensures chain { result.1 < self.chains }
    {
        let hash = key.wrapping_mul(2_654_435_761) >> 16;
        let row = hash / 16 % u32::from(self.rows);
        let chain = hash % u32::from(self.chains);
        (row as u8, chain as u8)
    }

    /// Makes an empty map, for the variable.
    pub fn make<R: Wait>(self, rt: &R, m: &mut SharedMutator) -> Result<(), Refused>
        ensures made { IfOk result (λ _. (m.new.place ≡ Inside) × Lays self.map self.rows m.old m.new) }
        ensures refused { IfErr result (λ e. IsRefused e (IsFor self.map self.width m.old) m.old m.new) }
        ensures world { arc_value m.new.heap ≡ arc_value m.old.heap }
    {
        begin(m, self.map, self.width)?;
        make(rt, m, self.map, 0)?;
        for row in 0..self.rows {
            make(rt, m, OWN, 0)?;
            lay(m, self.map, row);
        }
        forget(m, OWN);
        Ok(())
    }

    /// Variable `found` refers to what is kept under a key, if anything: whether it is.
    pub fn find<R: Wait>(
        self,
        rt: &R,
        m: &mut SharedMutator,
        key: u32,
        found: u8,
    ) -> Result<bool, Refused>
        ensures found { IfOk result (λ is. IsTrue is → word_in (state_of m.new.seat) found ≡ 0 → ⊥) }
        ensures nothing { IfOk result (λ is. IsFalse is → word_in (state_of m.new.seat) found ≡ 0) }
        ensures inside { IfOk result (λ _. m.new.place ≡ Inside) }
        ensures refused { IfErr result (λ e. IsRefused e (IsFor found self.width m.old) m.old m.new) }
        ensures none { ChangesNone m.old m.new }
        ensures world { arc_value m.new.heap ≡ arc_value m.old.heap }
    {
        begin(m, found, self.width)?;
        self.come(m, key);
        seek(rt, m, key)?;
        copy(m, found, FOUND);
        let_go(m, LOOKED);
        Ok(!is_nil(m, found))
    }

    /// Keeps variable `item`'s object under a key, or nothing if it is nil: whether something was kept before.
    pub fn put<R: Wait>(
        self,
        rt: &R,
        m: &mut SharedMutator,
        key: u32,
        item: u8,
    ) -> Result<bool, Refused>
        ensures put { IfOk result (λ _. (m.new.place ≡ Inside) × Renews 1 m.old m.new) }
        ensures refused { IfErr result (λ e. IsRefused e (IsFor item self.width m.old) m.old m.new × Renews 0 m.old m.new) }
        ensures world { arc_value m.new.heap ≡ arc_value m.old.heap }
    {
        begin(m, item, self.width)?;
        self.change(rt, m, key, None, item)?;
        let was = !is_nil(m, FOUND);
        let_go(m, CHANGED);
        Ok(was)
    }

    /// Takes out what is kept under a key, for variable `found`: whether something was.
    pub fn take<R: Wait>(
        self,
        rt: &R,
        m: &mut SharedMutator,
        key: u32,
        found: u8,
    ) -> Result<bool, Refused>
        ensures found { IfOk result (λ is. IsTrue is → word_in (state_of m.new.seat) found ≡ 0 → ⊥) }
        ensures nothing { IfOk result (λ is. IsFalse is → word_in (state_of m.new.seat) found ≡ 0) }
        ensures taken { IfOk result (λ _. (m.new.place ≡ Inside) × Renews 1 m.old m.new) }
        ensures refused { IfErr result (λ e. IsRefused e (IsFor found self.width m.old) m.old m.new × Renews 0 m.old m.new) }
        ensures world { arc_value m.new.heap ≡ arc_value m.old.heap }
    {
        begin(m, found, self.width)?;
        self.change(rt, m, key, None, NOTHING)?;
        copy(m, found, FOUND);
        let_go(m, CHANGED);
        Ok(!is_nil(m, found))
    }

    /// Keeps what variable `new` refers to under a key, if what `expected` refers to is kept there: whether it was.
    /// Nil stands for nothing. Of several threads that expect the same, only one succeeds.
    pub fn exchange<R: Wait>(
        self,
        rt: &R,
        m: &mut SharedMutator,
        key: u32,
        expected: u8,
        new: u8,
    ) -> Result<bool, Refused>
        ensures exchanged { IfOk result (λ won. (m.new.place ≡ Inside) × Renews (if won then 1 else 0) m.old m.new) }
        ensures refused { IfErr result (λ e. IsRefused e ((expected < 20) × IsFor new self.width m.old) m.old m.new × Renews 0 m.old m.new) }
        ensures world { arc_value m.new.heap ≡ arc_value m.old.heap }
    {
        if expected >= CALLERS {
            return Err(Refused::OutOfRange);
        }
        begin(m, new, self.width)?;
        let won = self.change(rt, m, key, Some(expected), new)?;
        let_go(m, CHANGED);
        Ok(won)
    }

    fn come(self, m: &mut SharedMutator, key: u32)
        requires inside { m.old.place ≡ Inside }
        requires wide { self.width ≤ field_count_of m.old }
        ensures inside { m.new.place ≡ Inside }
        ensures none { ChangesNone m.old m.new }
        ensures told { IsTold 21 m.new }
        ensures world { arc_value m.new.heap ≡ arc_value m.old.heap }
    {
        let (row, chain) = self.place_of(key);
        get(m, OWN, self.map, row);
        see(m, OWN, chain);
    }

    /// Keeps what variable `new` refers to, if `expected` is kept or none is named: whether it was.
    fn change<R: Wait>(
        self,
        rt: &R,
        m: &mut SharedMutator,
        key: u32,
        expected: Option<u8>,
        new: u8,
    ) -> Result<bool, Refused>
        requires inside { m.old.place ≡ Inside }
        requires wide { (new < 32) × (self.width ≤ field_count_of m.old) }
        requires expected { IfSome expected (λ v. v < 32) }
        ensures changed { IfOk result (λ won. (m.new.place ≡ Inside) × Renews (if won then 1 else 0) m.old m.new) }
        ensures any { IfOk result (λ won. IsTrue (is_none expected) → IsTrue won) }
        ensures refused { IfErr result (λ e. GivenUp e m.new × Renews 0 m.old m.new) }
        ensures world { arc_value m.new.heap ≡ arc_value m.old.heap }
    {
        for _round in rt.forever() {
            self.come(m, key);
            seek(rt, m, key)?;
            if !is_expected(m, expected) {
                return Ok(false);
            }
            renew(rt, m, key, new)?;
            if self.publish(m, key)? {
                return Ok(true);
            }
            pass(rt, m)?;
        }
        Ok(false)
    }

    /// Puts the chain that was made in the place of the one that was seen, if that is still there.
    fn publish(self, m: &mut SharedMutator, key: u32) -> Result<bool, Refused>
        requires inside { m.old.place ≡ Inside }
        requires wide { self.width ≤ field_count_of m.old }
        requires told { IsTold 21 m.old }
        ensures renewed { IfOk result (λ won. (m.new.place ≡ Inside) × Renews (if won then 1 else 0) m.old m.new) }
        ensures refused { IfErr result (λ e. GivenUp e m.new × Renews 0 m.old m.new) }
        ensures world { arc_value m.new.heap ≡ arc_value m.old.heap }
    {
        let (_row, chain) = self.place_of(key);
        m.exchange(OWN, chain, SEEN, MADE)
    }
}

/// How many references the objects of a map need.
fn width(rows: u8, chains: u8) -> u8
    ensures { result ≡ width_of rows chains }
{
    let greater = if rows < chains { chains } else { rows };
    if greater < 2 { 2 } else { greater }
}
