// The exit queue: the last epoch that is taken and how many leave at it. The survey makes the pair, it is moved in place at each exit, and
// it answers as a rescan of the registry does.
#![tactic(auto)]

ghost use Rattle.std.specs.Prelude.{◌≡◌, ◌*◌, ◌/◌, ◌<◌, length};
ghost use Rattle.definitions.specs.Record.{decode};
ghost use Rattle.definitions.specs.ExitQueue.{queue_of};
ghost use Rattle.exit_queue.specs.Queue.{last_after, number_after, joined, start_pair, next_epoch, exit_by, same_queue};
ghost use Rattle.exit_queue.specs.Turns.{Exits};

pub mod exits;

use crate::exits::write_exit;
use arithmetic::add64;
use definitions::{EXIT_EPOCH, ExitQueue, FAR_FUTURE_EPOCH, Refusal};

pub fn same_queue(a: ExitQueue, b: ExitQueue) -> bool
    ensures { result ≡ same_queue a b }
{
    if a.last_epoch != b.last_epoch {
        return false;
    }
    a.number == b.number
}

pub fn last_after(last_epoch: u64, epoch: u64) -> u64
    ensures { result ≡ last_after last_epoch epoch }
{
    if epoch == FAR_FUTURE_EPOCH {
        return last_epoch;
    }
    if last_epoch < epoch {
        return epoch;
    }
    last_epoch
}

pub fn number_after(last_epoch: u64, number: u64, epoch: u64) -> u64
    requires { number < 18446744073709551615 }
    ensures { result ≡ number_after last_epoch number epoch }
{
    if epoch == FAR_FUTURE_EPOCH {
        return number;
    }
    if last_epoch < epoch {
        return 1;
    }
    if epoch == last_epoch {
        return number + 1;
    }
    number
}

// One more leaves at `epoch`: the pair is moved in place. FAR is no exit, and the pair stays.
pub fn exit(queue: &mut ExitQueue, epoch: u64)
    requires { queue.old.number < 18446744073709551615 }
    ensures { queue.new ≡ joined queue.old epoch }
{
    let last = queue.last_epoch;
    let number = number_after(last, queue.number, epoch);
    let last_epoch = last_after(last, epoch);
    queue.last_epoch = last_epoch;
    queue.number = number;
}

// By value, for loops.
pub fn exited(queue: ExitQueue, epoch: u64) -> ExitQueue
    requires { queue.number < 18446744073709551615 }
    ensures { result ≡ joined queue epoch }
{
    let mut own = queue;
    exit(&mut own, epoch);
    own
}

// The pair of a registry, by one pass over it.
pub fn queue_of(registry: &[u64]) -> ExitQueue
    requires { length registry.now ≡ 10 * (length registry.now / 10) }
    ensures { result ≡ queue_of (decode registry.now) }
{
    let n = registry.len() / 10;
    let mut queue = ExitQueue {
        last_epoch: 0,
        number: 0,
    };
    for i in 0..n {
        queue = exited(queue, registry[10 * i + EXIT_EPOCH]);
    }
    queue
}

// `least` is the activation exit epoch of the present epoch: no exit is earlier.
pub fn start_pair(queue: ExitQueue, least: u64) -> ExitQueue
    ensures { result ≡ start_pair least queue }
{
    if queue.last_epoch < least {
        return ExitQueue {
            last_epoch: least,
            number: 0,
        };
    }
    queue
}

fn next_epoch(queue: ExitQueue, limit: u64) -> Result<u64, Refusal>
    ensures { result ≡ next_epoch limit queue }
{
    if queue.number < limit {
        return Ok(queue.last_epoch);
    }
    add64(queue.last_epoch, 1)
}

// One validator's exit, on its ten numbers: the pair afterwards.
pub fn exit_entry(
    entry: &mut [u64],
    queue: ExitQueue,
    limit: u64,
    delay: u64,
) -> Result<ExitQueue, Refusal>
    requires { (length entry.old ≡ 10) × (queue.number < 18446744073709551615) }
    ensures { Exits (exit_by limit delay queue) queue entry.old entry.new result }
{
    if entry[EXIT_EPOCH] != FAR_FUTURE_EPOCH {
        return Ok(queue);
    }
    let exit = next_epoch(queue, limit)?;
    let withdrawable = add64(exit, delay)?;
    write_exit(entry, exit, withdrawable);
    Ok(exited(queue, exit))
}
