// Deneb's registry step and close (03, F-1). The other steps are Altair's, with Bellatrix's pair.
ghost use Rattle.std.specs.Prelude.{◌≡◌};
ghost use Rattle.definitions_close.specs.Calls.{full_outcome};
ghost use Rattle.definitions_close.specs.QueueCalls.{QueueCloses};
ghost use Rattle.definitions_deneb.specs.Calls.{registry_tests, registry_work, deneb_called, deneb_close};

use definitions::{ExitQueue, Finality, FullAnswer, QueueAnswer};
use definitions_deneb::DenebRules;

#[unsafe(no_mangle)]
pub extern "C" fn deneb_process_registry_updates(
    rules: DenebRules,
    state_slot: u64,
    finalized_epoch: u64,
    queue: ExitQueue,
    opening: &[u64],
    closing: &mut [u64],
) -> QueueAnswer
    ensures { QueueCloses
        (registry_tests rules state_slot finalized_epoch queue opening.now closing.old)
        (registry_work rules state_slot finalized_epoch opening.now)
        queue opening.now closing.old closing.new result }
{
    deneb::process_registry_updates(rules, state_slot, finalized_epoch, queue, opening, closing)
}

#[unsafe(no_mangle)]
pub extern "C" fn deneb_close(
    rules: DenebRules,
    finality: Finality,
    queue: ExitQueue,
    registry: &[u64],
    slashings: &[u64],
    roots: &[u8],
    closing_registry: &mut [u64],
    closing_slashings: &mut [u64],
    amounts: &mut [u64],
) -> FullAnswer
    ensures { full_outcome result closing_registry.new closing_slashings.new amounts.new
        ≡ deneb_close (deneb_called rules finality queue registry.now slashings.now roots.now
        closing_registry.old closing_slashings.old amounts.old) }
{
    deneb::deneb_close(
        rules,
        finality,
        queue,
        registry,
        slashings,
        roots,
        closing_registry,
        closing_slashings,
        amounts,
    )
}
