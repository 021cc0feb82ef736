// Test 8 as code: the pair that is lent, and the one that a pass over the registry found (R-8).
ghost use Rattle.std.specs.Prelude.{◌≡◌};
ghost use Rattle.validator_exit.specs.Found.{pair_test, found_tests};

use definitions::{ExitQueue, Refusal};
use exit_queue::same_queue;

pub fn queue_refusal(queue: ExitQueue, found: ExitQueue) -> Result<(), Refusal>
    ensures { result ≡ pair_test queue found }
{
    if !same_queue(queue, found) {
        return Err(Refusal::WrongQueue);
    }
    Ok(())
}

// Test 3 of the registry's entries, of which `tested` is the answer, then 8.
pub fn found_refusal(
    tested: Result<(), Refusal>,
    queue: ExitQueue,
    found: ExitQueue,
) -> Result<(), Refusal>
    ensures { result ≡ found_tests tested queue found }
{
    tested?;
    queue_refusal(queue, found)
}
