// One validator's turn of process_registry_updates: eligibility and ejection. registry_step and write_turn run it over the registry.
#![tactic(auto)]

ghost use Rattle.std.specs.Prelude.{◌≡◌, ◌^◌, ◌<◌, length};
ghost use Rattle.definitions.specs.Record.{decode_one, encode_one};
ghost use Rattle.definitions.specs.Document.Phase0.EpochProcessing.{queue_eligible, is_ejected};
ghost use Rattle.exit_queue.specs.Turns.{Turns};
ghost use Rattle.registry.specs.Updates.{turn_by};

pub mod activation;

use definitions::{ACTIVATION_ELIGIBILITY_EPOCH, EFFECTIVE_BALANCE, ExitQueue, Refusal, Settings};
use entries::{entry_is_active, entry_is_eligible_for_activation_queue};
use exit_queue::exit_entry;

fn entry_queue_eligible(s: Settings, epoch: u64, entry: &mut [u64])
    requires { (length entry.old ≡ 10) × (epoch < 2 ^ 48) }
    ensures { entry.new ≡ encode_one (queue_eligible s epoch (decode_one entry.old)) }
{
    if !entry_is_eligible_for_activation_queue(s, &entry[..]) {
        return;
    }
    entry[ACTIVATION_ELIGIBILITY_EPOCH] = epoch + 1;
}

fn entry_is_ejected(s: Settings, epoch: u64, entry: &[u64]) -> bool
    requires { length entry.now ≡ 10 }
    ensures { result ≡ is_ejected s epoch (decode_one entry.now) }
{
    if !entry_is_active(entry, epoch) {
        return false;
    }
    entry[EFFECTIVE_BALANCE] <= s.ejection_balance
}

// One validator's turn: the exit queue's pair afterwards. An ejection takes its epoch from it.
pub fn update_entry(
    s: Settings,
    epoch: u64,
    limit: u64,
    queue: ExitQueue,
    entry: &mut [u64],
) -> Result<ExitQueue, Refusal>
    requires { (length entry.old ≡ 10) × (epoch < 2 ^ 48) × (queue.number < 18446744073709551615) }
    ensures { Turns (turn_by s epoch limit queue) queue entry.old entry.new result }
{
    entry_queue_eligible(s, epoch, entry);
    if !entry_is_ejected(s, epoch, &entry[..]) {
        return Ok(queue);
    }
    let delay = s.min_validator_withdrawability_delay;
    exit_entry(entry, queue, limit, delay)
}
