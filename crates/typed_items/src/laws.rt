// What the machine code of typed definitions does.
ghost use Rattle.typed_items.specs.Laws.{ItemsDoNoMore, ItemsDoTheirMeaning, ShowsNoMore, TypedCodeIsKept};
ghost use Rattle.typed_items.specs.OnChip.{ItemsDoTheirMeaningOnChip, RunsWithinRingsAgree, ShowsNoMoreOnChip};

use j1_simulator::runs_only_grow;
use word_laws::{rings_do_the_same, runs_join};

/// The cells of typed items do what the items mean, by their word steps: at least as much within 8 times the price, and no more than as
/// many word steps as there were instructions; and where the items have been done the machine stands behind their cells.
pub fn items_do_their_meaning()
    ensures forward { ItemsDoTheirMeaning }
    ensures backward { ItemsDoNoMore }
    ensures no_more { ShowsNoMore }
{
    runs_join();
    runs_only_grow();
}

/// On the chip they do so too, where their word steps fit its stacks beside the return cells below; as every run does that keeps within the
/// rings.
pub fn items_do_their_meaning_on_chip()
    ensures rings { RunsWithinRingsAgree }
    ensures items { ItemsDoTheirMeaningOnChip }
    ensures no_more { ShowsNoMoreOnChip }
{
    items_do_their_meaning();
    rings_do_the_same();
    runs_join();
    runs_only_grow();
}

/// Typed code stays as it is where data space does, behind what the kernel changes while it runs a typed word.
pub fn typed_code_is_kept()
    ensures { TypedCodeIsKept }
{}
