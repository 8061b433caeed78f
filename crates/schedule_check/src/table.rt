//! The table of steps.
ghost use Rattle.std.specs.Prelude.{◌≡◌, map};
ghost use Rattle.schedule_check.specs.Table.{by_rows, step_of as step_said, packet_rows, colour_rows, mutator_rows, making_rows, world_rows, sweep_rows, counter_rows, help_rows};

use crate::parameters::{
    alone, byte_byte_variable, byte_long, byte_number, byte_number_flag, cell_byte, cell_byte_long,
    number_byte, number_cell, number_flag, one_byte, one_cell, one_number, one_phase,
};
use mark_core::Step;

macro_rules! step {
    ($words:ident, $step:ident) => {
        alone($words, Step::$step)
    };
    ($words:ident, $step:ident $read:ident($a:ident)) => {
        match $read($words) {
            Some(x) => Some(Step::$step { $a: x }),
            None => None,
        }
    };
    ($words:ident, $step:ident $read:ident($a:ident, $b:ident)) => {
        match $read($words) {
            Some(x) => Some(Step::$step { $a: x.0, $b: x.1 }),
            None => None,
        }
    };
    ($words:ident, $step:ident $read:ident($a:ident, $b:ident, $c:ident)) => {
        match $read($words) {
            Some(x) => Some(Step::$step {
                $a: x.0,
                $b: x.1,
                $c: x.2,
            }),
            None => None,
        }
    };
}

macro_rules! by_rows {
    ($name:ident, $words:ident, $($row:literal => $step:ident $($read:ident($($field:ident),*))?; )* else $rest:ident) => {
        $(if $name == $row { step!($words, $step $($read($($field),*))?) } else)* { $rest }
    };
}

fn of_packet(name: &str, words: &[&str], rest: Option<Step>) -> Option<Step>
    ensures { result ≡ by_rows packet_rows rest name.now (map (λ w. w.now) words.now) }
{
    by_rows! { name, words,
        "reserve" => Reserve;
        "take" => Take byte_number(q, p);
        "give" => Give number_flag(p, deferred);
        "credit" => Credit;
        "push" => Push number_cell(p, cell);
        "pop" => Pop one_number(p);
        "look" => Look byte_number(q, g);
        "read_count" => ReadCount;
        "store_length" => StoreLength one_number(p);
        "read_length" => ReadLength one_number(p);
        else rest
    }
}

fn of_colour(name: &str, words: &[&str], rest: Option<Step>) -> Option<Step>
    ensures { result ≡ by_rows colour_rows rest name.now (map (λ w. w.now) words.now) }
{
    by_rows! { name, words,
        "read_alloc" => ReadAlloc one_number(b);
        "read_field" => ReadField cell_byte(c, i);
        "read_root" => ReadRoot number_byte(section, v);
        "set_mark" => SetMark one_cell(c);
        "dirty_card" => DirtyCard one_number(card);
        "clear_card" => ClearCard one_number(card);
        "read_marks" => ReadMarks one_number(b);
        "read_card" => ReadCard one_number(card);
        "read_phase" => ReadPhase;
        "check_card" => CheckCard one_number(card);
        else rest
    }
}

fn of_mutator(name: &str, words: &[&str], rest: Option<Step>) -> Option<Step>
    ensures { result ≡ by_rows mutator_rows rest name.now (map (λ w. w.now) words.now) }
{
    by_rows! { name, words,
        "read_own" => ReadOwn cell_byte(c, i);
        "read_value" => ReadValue one_cell(c);
        "read_ident" => ReadIdent one_cell(c);
        "read_cat" => ReadCat one_byte(v);
        "read_weak" => ReadWeak one_cell(c);
        "store_field" => StoreField byte_byte_variable(v, i, w);
        "store_value" => StoreValue byte_number(v, n);
        "store_root" => StoreRoot byte_long(v, r);
        else rest
    }
}

fn of_making(name: &str, words: &[&str], rest: Option<Step>) -> Option<Step>
    ensures { result ≡ by_rows making_rows rest name.now (map (λ w. w.now) words.now) }
{
    by_rows! { name, words,
        "claim_block" => ClaimBlock one_number(b);
        "release_block" => ReleaseBlock;
        "read_free" => ReadFree;
        "store_new" => StoreNew cell_byte_long(c, part, word);
        "publish_cells" => PublishCells;
        else rest
    }
}

fn of_world(name: &str, words: &[&str], rest: Option<Step>) -> Option<Step>
    ensures { result ≡ by_rows world_rows rest name.now (map (λ w. w.now) words.now) }
{
    by_rows! { name, words,
        "enter_step" => EnterStep;
        "leave_step" => LeaveStep;
        "raise_step" => RaiseStep;
        "observe" => Observe;
        "drop_step" => DropStep;
        "store_phase" => StorePhase one_phase(to);
        "split" => Split;
        "join" => Join one_number(other);
        else rest
    }
}

fn of_sweep(name: &str, words: &[&str], rest: Option<Step>) -> Option<Step>
    ensures { result ≡ by_rows sweep_rows rest name.now (map (λ w. w.now) words.now) }
{
    by_rows! { name, words,
        "next_block" => NextBlock;
        "next_of_cards" => NextOfCards;
        "read_block_marks" => ReadBlockMarks;
        "store_alloc" => StoreAlloc;
        "clear_marks" => ClearMarks;
        "wipe_card" => WipeCard one_number(card);
        else rest
    }
}

fn of_counter(name: &str, words: &[&str], rest: Option<Step>) -> Option<Step>
    ensures { result ≡ by_rows counter_rows rest name.now (map (λ w. w.now) words.now) }
{
    by_rows! { name, words,
        "store_position" => StorePosition one_number(done);
        "store_named" => StoreNamed;
        "reset" => Reset one_byte(which);
        "add_stat" => AddStat byte_number_flag(which, by, down);
        "read_stat" => ReadStat one_byte(which);
        else rest
    }
}

fn of_help(name: &str, words: &[&str], rest: Option<Step>) -> Option<Step>
    ensures { result ≡ by_rows help_rows rest name.now (map (λ w. w.now) words.now) }
{
    by_rows! { name, words,
        "open_step" => OpenStep;
        "join_help_step" => JoinHelpStep;
        "leave_help_step" => LeaveHelpStep;
        "close_step" => CloseStep;
        "see_help" => SeeHelp;
        "read_season" => ReadSeason;
        "next_season" => NextSeason;
        else rest
    }
}

/// The step of a name with its parameters; None if there is no such step.
pub fn step_of(name: &str, words: &[&str]) -> Option<Step>
    ensures { result ≡ step_said name.now (map (λ w. w.now) words.now) }
{
    let step = None;
    let step = of_help(name, words, step);
    let step = of_counter(name, words, step);
    let step = of_sweep(name, words, step);
    let step = of_world(name, words, step);
    let step = of_making(name, words, step);
    let step = of_mutator(name, words, step);
    let step = of_colour(name, words, step);
    let step = of_packet(name, words, step);
    step
}
