// What an exit writes, and the laws of exits by rescanning the registry: phase0/helpers.rs 1035. exit_queue and validator_exit make them by
// the exit queue's pair, which answers as a rescan does.
ghost use Rattle.std.specs.Prelude.{◌≡◌, length};
ghost use Rattle.definitions.specs.Record.{decode_one, encode_one};
ghost use Rattle.definitions.specs.Updates.{with_exit};

use definitions::{EXIT_EPOCH, WITHDRAWABLE_EPOCH};

pub fn write_exit(entry: &mut [u64], exit: u64, withdrawable: u64)
    requires { length entry.old ≡ 10 }
    ensures { entry.new ≡ encode_one (with_exit exit withdrawable (decode_one entry.old)) }
{
    entry[EXIT_EPOCH] = exit;
    entry[WITHDRAWABLE_EPOCH] = withdrawable;
}
