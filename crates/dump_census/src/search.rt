ghost use Rattle.std.specs.Prelude.{◌≡◌, ◌<◌, ◌≤◌, length, All, OnOk, IfOk, replicate, None, []};
ghost use Rattle.heap_dump.specs.Final.{HasDump, object};
ghost use Rattle.heap_dump.specs.Reading.{heap_of_dump};
ghost use Rattle.dump_census.specs.Rounds.{reach, reach_all, reach_from};

use heap_dump::Dump;
use plain_heap::OutOfMemory;
use std::alloc::Global;
use std::marker::Model;

/// The level of each record as far as it is known, and the records that were found last.
#[derive(Drop)]
pub struct Search {
    pub found: Vec<Option<u32>>,
    pub fresh: Vec<u32>,
}

impl Model for Search {
    ghost use Rattle.dump_census.specs.Rounds.{Progress};

    ghost Value = { Progress };

    ghost view = { λ s. record { found = s.found.items; fresh = s.fresh.items } };
}

impl Search {
    /// A search among so many records, none of them found yet.
    pub fn start(alloc: Global, records: u32) -> Result<Search, OutOfMemory>
        ensures { IfOk result (λ s. s ≡ record { found = replicate records None; fresh = [] }) }
    {
        match vec![in alloc; None; records as usize] {
            Ok(found) => Ok(Search {
                found,
                fresh: Vec::new(alloc),
            }),
            Err(_) => Err(OutOfMemory),
        }
    }

    /// Gives the record of a reference this level, if it has none.
    fn reach(&mut self, level: u32, reference: u32) -> Result<(), OutOfMemory>
        requires { reference ≤ length self.old.found }
        ensures { OnOk result (self.new ≡ reach level self.old reference) }
    {
        if reference == 0 {
            return Ok(());
        }
        let k = reference - 1;
        if self.found[k as usize].is_some() {
            return Ok(());
        }
        self.found[k as usize] = Some(level);
        match self.fresh.push(k) {
            Ok(()) => Ok(()),
            Err(_) => Err(OutOfMemory),
        }
    }

    /// Gives this level to what record k refers to.
    fn reach_record(&mut self, dump: &Dump<'_>, level: u32, k: u32) -> Result<(), OutOfMemory>
        requires legal { HasDump (heap_of_dump dump.now) }
        requires k { k < length (heap_of_dump dump.now).records }
        requires long { length self.old.found ≡ length (heap_of_dump dump.now).records }
        ensures { OnOk result (self.new ≡ reach_all level self.old (object (heap_of_dump dump.now) k).refs) }
    {
        let Some(object) = dump.nth(k) else {
            unreachable!();
        };
        for i in 0..dump.fields() {
            let Some(reference) = object.reference(i) else {
                unreachable!();
            };
            match self.reach(level, reference) {
                Ok(()) => {}
                Err(e) => return Err(e),
            }
        }
        Ok(())
    }

    /// Gives level 0 to what the variables refer to. If memory runs out, some records may have the level.
    pub fn reach_variables(&mut self, dump: &Dump<'_>) -> Result<(), OutOfMemory>
        requires legal { HasDump (heap_of_dump dump.now) }
        requires long { length self.old.found ≡ length (heap_of_dump dump.now).records }
        ensures { OnOk result (self.new ≡ reach_all 0 self.old (heap_of_dump dump.now).roots) }
    {
        for i in 0..32 * dump.sections() {
            let Some(reference) = dump.root(i / 32, i % 32) else {
                unreachable!();
            };
            match self.reach(0, reference) {
                Ok(()) => {}
                Err(e) => return Err(e),
            }
        }
        Ok(())
    }

    /// Gives this level to what these records refer to. If memory runs out, some records may have the level.
    pub fn reach_from(
        &mut self,
        dump: &Dump<'_>,
        level: u32,
        records: &[u32],
    ) -> Result<(), OutOfMemory>
        requires legal { HasDump (heap_of_dump dump.now) }
        requires records { All (λ k. k < length (heap_of_dump dump.now).records) records.now }
        requires long { length self.old.found ≡ length (heap_of_dump dump.now).records }
        ensures { OnOk result (self.new ≡ reach_from (heap_of_dump dump.now) level self.old records.now) }
    {
        for k in records {
            match self.reach_record(dump, level, *k) {
                Ok(()) => {}
                Err(e) => return Err(e),
            }
        }
        Ok(())
    }
}
