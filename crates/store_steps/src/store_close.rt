// The close with a store in place of settings, fork and pair (02, R-10).
ghost use Rattle.std.specs.Prelude.{◌≡◌};
ghost use Rattle.definitions_close.specs.StoreClose.{store_close};
ghost use Rattle.definitions_close.specs.Calls.{lent, full_outcome, store_called};

use definitions::{ActivationLimit, ExitQueue, Finality, FullAnswer};
use full_close::full_close;
use store::store_rules::rules_for;
use totals::raising::none_raised;

pub fn store_close(
    store: &[u64],
    count: u64,
    finality: Finality,
    queue: ExitQueue,
    registry: &[u64],
    slashings: &[u64],
    roots: &[u8],
    closing_registry: &mut [u64],
    closing_slashings: &mut [u64],
    amounts: &mut [u64],
) -> FullAnswer
    ensures { full_outcome result closing_registry.new closing_slashings.new amounts.new
        ≡ store_close (store_called (lent store.now count) finality queue registry.now slashings.now roots.now
        closing_registry.old closing_slashings.old amounts.old) }
{
    let found = rules_for(
        store,
        count,
        finality.slot,
        registry,
        slashings,
        roots,
        closing_registry,
        closing_slashings,
        amounts,
    );
    let refusal = found.refusal;
    if refusal != 0 {
        return FullAnswer {
            refusal,
            finality,
            queue,
            raised: none_raised(),
            test: 0,
        };
    }
    full_close(
        ActivationLimit::Churn,
        found.rules,
        finality,
        queue,
        registry,
        slashings,
        roots,
        closing_registry,
        closing_slashings,
        amounts,
    )
}
