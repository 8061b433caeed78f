ghost use Rattle.std.specs.Prelude.{◌≤◌, length, IsFalse};
ghost use Rattle.std.specs.List.{list_any};
ghost use Rattle.plain_heap.specs.Sections.{joined, parts_of, lends};
ghost use Rattle.gc_play.specs.Options.{IsPlayable};

use gc_script::Script;

fn see_warehouses(script: &Script<'_>)
    ensures { length script.now.sections.warehouses ≤ 32 }
{
    let _warehouses = script.warehouses();
}

#[tactic(auto, using(crate::proofs::Lending::none_lends))]
fn see_catalogue(script: &Script<'_>)
    ensures { IsFalse (list_any (λ e. lends e.op) (joined (parts_of script.now.sections 0))) }
{
    let _catalogue = script.catalogue();
}

pub(crate) fn see_script(script: &Script<'_>)
    ensures { IsPlayable script.now.sections }
{
    see_warehouses(script);
    see_catalogue(script);
    let _fields = script.fields();
    let _seasons = script.seasons();
}
