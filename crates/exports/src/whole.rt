// The whole close, with a store of settings by starting epoch, the exit queue's pair and the amounts; and the number of validators that it
// charges for.
ghost use Rattle.std.specs.Prelude.{◌≡◌};
ghost use Rattle.definitions.specs.Checked.{value};
ghost use Rattle.definitions.specs.Record.{decode};
ghost use Rattle.definitions.specs.Refusals.{after_tests};
ghost use Rattle.definitions.specs.LeafRefusals.{slot_registry_tests};
ghost use Rattle.definitions.specs.Close.{charged};
ghost use Rattle.definitions_close.specs.StoreClose.{store_close};
ghost use Rattle.definitions_close.specs.Calls.{full_outcome, lent, store_called};
ghost use Rattle.definitions.specs.Plain.{plain_number};

use definitions::{ExitQueue, Finality, FullAnswer, PlainNumber, Settings};
use plain::plain_number;

#[unsafe(no_mangle)]
pub extern "C" fn altair_close(
    store: &[u64],
    count: u64,
    finality: Finality,
    queue: ExitQueue,
    registry: &[u64],
    slashings: &[u64],
    roots: &[u8],
    closing_registry: &mut [u64],
    closing_slashings: &mut [u64],
    amounts: &mut [u64],
) -> FullAnswer
    ensures { full_outcome result closing_registry.new closing_slashings.new amounts.new
        ≡ store_close (store_called (lent store.now count) finality queue registry.now slashings.now roots.now
        closing_registry.old closing_slashings.old amounts.old) }
{
    store_steps::store_close::store_close(
        store,
        count,
        finality,
        queue,
        registry,
        slashings,
        roots,
        closing_registry,
        closing_slashings,
        amounts,
    )
}

#[unsafe(no_mangle)]
pub extern "C" fn altair_charged(s: Settings, state_slot: u64, registry: &[u64]) -> PlainNumber
    ensures { result
        ≡ plain_number (after_tests (slot_registry_tests s state_slot registry.now) (value (charged s state_slot (decode registry.now)))) }
{
    plain_number(totals::charged(s, state_slot, registry))
}
