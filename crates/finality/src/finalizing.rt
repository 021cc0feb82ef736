// Which of the four finality tests last set the checkpoint (R-4).
ghost use Rattle.std.specs.Prelude.{◌≡◌, true, ◌^◌, ◌<◌};
ghost use Rattle.definitions.specs.Checked.{value};
ghost use Rattle.definitions.specs.Refusals.{good_finality};
ghost use Rattle.definitions_close.specs.FinalizingTest.{last_test, finalizing_test};

use crate::is_linked;
use definitions::{Finality, Settings};
use epochs::current_epoch;

// A later test overrides, so the last one is asked first.
fn last_test(epoch: u64, bits: u64, old: Finality) -> u64
    requires { (old.previous_justified_checkpoint.epoch < 2 ^ 48) × (old.current_justified_checkpoint.epoch < 2 ^ 48) }
    ensures { result ≡ last_test epoch bits old }
{
    let previous = old.previous_justified_checkpoint;
    let current = old.current_justified_checkpoint;
    if is_linked(bits % 4 == 3, current.epoch, 1, epoch) {
        return 4;
    }
    if is_linked(bits % 8 == 7, current.epoch, 2, epoch) {
        return 3;
    }
    if is_linked(bits / 2 % 4 == 3, previous.epoch, 2, epoch) {
        return 2;
    }
    if is_linked(bits / 2 % 8 == 7, previous.epoch, 3, epoch) {
        return 1;
    }
    0
}

// Of justification, or of a close, that was handed `old` and gave `after`.
pub fn finalizing_test(s: Settings, old: Finality, after: Finality) -> u64
    requires { (0 < s.slots_per_epoch) × (good_finality old ≡ true) }
    ensures { result ≡ finalizing_test s old (value after) }
{
    let epoch = current_epoch(s, old.slot);
    if epoch <= 1 {
        return 0;
    }
    last_test(epoch, after.justification_bits, old)
}
