//! One part of a section.
ghost use Rattle.std.specs.Prelude.{◌≡◌, ◌≤◌, None, is_some, IsTrue};
ghost use Rattle.gc_table.specs.Seats.{Across, Sits, state_of, view_of};
ghost use Rattle.gc_cycle.specs.Standing.{IsOut};
ghost use Rattle.play_end.specs.Done.{turn_word};
ghost use Rattle.warehouse.specs.Commands.{AllEnds, CountsPart, MayPlayPart};
ghost use Rattle.warehouse.specs.Ending.{CountsAbsent};
ghost use Rattle.warehouse.specs.Playing.{IsPartPlayed, IsPlaying, MayPlay, commands_of_part};

use crate::commands::play_command;
use crate::gate::Gate;
use crate::mutator::Mutator;
use alloc_cache::Cache;
use gc_cycle::{Safe, go_in, go_out, retire_some, spend_none};
use gc_script::Section;
use gc_table::{Heap, HeapSeat};
use mark_core::DONE;
use play_end::Played;
use std::sync::Wait;
use stop_world::leave;

fn turn_of(section: u32, season: u32) -> u64
    requires { 1 ≤ season }
    ensures { result ≡ turn_word section season }
{
    let end = 2 * u64::from(season);
    if section == 0 { end - 2 } else { end - 1 }
}

fn play_commands<'a, R: Wait, G: Gate>(
    rt: &R,
    heap: &Heap,
    mutator: &mut Mutator<'a>,
    section: &Section<'a>,
    season: u32,
    gate: &G,
) -> Safe
    requires playing { IsPlaying heap.now section.now None mutator.old }
    requires before { MayPlayPart section.now season mutator.old }
    ensures { AllEnds result heap.now section.now season (commands_of_part section.now season) mutator.old mutator.new }
{
    let turn = turn_of(section.number(), season);
    let mut cache: Option<Cache> = None;
    for command in section.commands_of(season).lent() {
        if !play_command(rt, heap, mutator, section, command, &mut cache, turn, gate) {
            spend_none(cache);
            return Safe::Full;
        }
    }
    Safe::Going(cache)
}

fn end_part<'a>(heap: &Heap, mutator: &mut Mutator<'a>, section: &Section<'a>, cache: Option<Cache>)
    requires playing { IsPlaying heap.now section.now cache mutator.old }
    ensures { CountsPart 1 heap.now section.now mutator.old mutator.new }
{
    retire_some(heap, &mut mutator.seat, cache);
    heap.add_stat(&mut mutator.seat, DONE, 1, false);
    heap.wake_resting();
    go_out(heap, &mut mutator.seat, mutator.count);
}

/// Plays one part of a section. Full if the heap was found full: then the section stands at its stored position.
pub fn play_part<'a, R: Wait, G: Gate>(
    rt: &R,
    heap: &Heap,
    mutator: &mut Mutator<'a>,
    section: &Section<'a>,
    season: u32,
    gate: &G,
) -> Played
    requires { MayPlay heap.now section.now season mutator.old }
    ensures { IsPartPlayed result heap.now section.now season mutator.old mutator.new }
{
    go_in(rt, heap, &mut mutator.seat);
    match play_commands(rt, heap, mutator, section, season, gate) {
        Safe::Full => {
            go_out(heap, &mut mutator.seat, mutator.count);
            Played::Full
        }
        Safe::Going(cache) => {
            end_part(heap, mutator, section, cache);
            Played::Done
        }
    }
}

/// Counts the part of a section that has no commands.
pub fn play_absent<R: Wait>(rt: &R, heap: &Heap, seat: &mut HeapSeat)
    requires seat { Sits heap.now seat.old × IsOut (view_of seat.old) }
    requires section { IsTrue (is_some (state_of seat.old).section) }
    ensures seat { Sits heap.now seat.new × IsOut (view_of seat.new) }
    ensures counts { Across CountsAbsent seat.old seat.new }
{
    go_in(rt, heap, seat);
    heap.add_stat(seat, DONE, 1, false);
    heap.wake_resting();
    leave(heap, seat);
}
