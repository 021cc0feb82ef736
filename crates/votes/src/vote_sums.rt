// The five sums that votes not yet counted ask for (R-13), in one pass: who is active, and each target's weight with no unknown flag
// set and with all set.
ghost use Rattle.std.specs.Prelude.{◌≡◌, cond, ◌&&◌, not, ◌*◌, ◌/◌, ◌<◌, eqb, length};
ghost use Rattle.definitions.specs.Record.{decode_one, decode};
ghost use Rattle.definitions_votes.specs.Filling.{previous_unknown, current_unknown, uniform, none_set, filled_one};
ghost use Rattle.votes.specs.Sums.{weight, active_at, hits_target, vote_sums_of, added_to, Counted};

use arithmetic::add64;
use definitions::{
    CURRENT_EPOCH_PARTICIPATION, EFFECTIVE_BALANCE, PREVIOUS_EPOCH_PARTICIPATION, Refusal, SLASHED,
};
use entries::{entry_is_active, flag_is_set};

#[derive(Clone, Copy)]
pub struct VoteSums {
    pub active: u64,
    pub previous_fewest: u64,
    pub previous_most: u64,
    pub current_fewest: u64,
    pub current_most: u64,
}

fn previous_unknown(mark: u64) -> bool
    ensures { result ≡ previous_unknown mark }
{
    (mark == 1) | (mark == 3)
}

fn current_unknown(mark: u64) -> bool
    ensures { result ≡ current_unknown mark }
{
    (mark == 2) | (mark == 3)
}

fn filled_in(unknown: bool, hit: bool, flag: bool) -> bool
    ensures { result ≡ cond unknown hit flag }
{
    if unknown {
        return hit;
    }
    flag
}

fn weight_where(active: bool, hit: bool, slashed: u64, weight: u64) -> u64
    ensures { result ≡ cond (active && hit && not (eqb slashed 1)) weight 0 }
{
    if !active {
        return 0;
    }
    if !hit {
        return 0;
    }
    if slashed == 1 {
        return 0;
    }
    weight
}

fn active_weight(active: bool, weight: u64) -> u64
    ensures { result ≡ cond active weight 0 }
{
    if active {
        return weight;
    }
    0
}

// What one validator adds to each sum, `set` being what its unknown flags are filled with.

fn weight_in_active(current_epoch: u64, mark: u64, entry: &[u64]) -> u64
    requires { length entry.now ≡ 10 }
    ensures { result ≡ weight (active_at current_epoch) (filled_one mark (none_set 0) (decode_one entry.now)) }
{
    let balance = entry[EFFECTIVE_BALANCE];
    active_weight(entry_is_active(entry, current_epoch), balance)
}

fn weight_in_previous(
    current_epoch: u64,
    previous_epoch: u64,
    mark: u64,
    set: bool,
    entry: &[u64],
) -> u64
    requires len { length entry.now ≡ 10 }
    requires previous_epoch_lt_current_epoch { previous_epoch < current_epoch }
    ensures { result ≡ weight (hits_target current_epoch previous_epoch) (filled_one mark (uniform set set 0) (decode_one entry.now)) }
{
    let balance = entry[EFFECTIVE_BALANCE];
    let slashed = entry[SLASHED];
    let flags = entry[PREVIOUS_EPOCH_PARTICIPATION];
    let active = entry_is_active(entry, previous_epoch);
    let hit = filled_in(previous_unknown(mark), set, flag_is_set(flags, 1));
    weight_where(active, hit, slashed, balance)
}

fn weight_in_current(current_epoch: u64, mark: u64, set: bool, entry: &[u64]) -> u64
    requires { length entry.now ≡ 10 }
    ensures { result ≡ weight (hits_target current_epoch current_epoch) (filled_one mark (uniform set set 0) (decode_one entry.now)) }
{
    let balance = entry[EFFECTIVE_BALANCE];
    let slashed = entry[SLASHED];
    let flags = entry[CURRENT_EPOCH_PARTICIPATION];
    let active = entry_is_active(entry, current_epoch);
    let hit = filled_in(current_unknown(mark), set, flag_is_set(flags, 1));
    weight_where(active, hit, slashed, balance)
}

fn entry_sums(current_epoch: u64, previous_epoch: u64, mark: u64, entry: &[u64]) -> VoteSums
    requires len { length entry.now ≡ 10 }
    requires previous_epoch_lt_current_epoch { previous_epoch < current_epoch }
    ensures { result ≡ vote_sums_of current_epoch previous_epoch mark (decode_one entry.now) }
{
    VoteSums {
        active: weight_in_active(current_epoch, mark, entry),
        previous_fewest: weight_in_previous(current_epoch, previous_epoch, mark, false, entry),
        previous_most: weight_in_previous(current_epoch, previous_epoch, mark, true, entry),
        current_fewest: weight_in_current(current_epoch, mark, false, entry),
        current_most: weight_in_current(current_epoch, mark, true, entry),
    }
}

fn added(sums: VoteSums, own: VoteSums) -> Result<VoteSums, Refusal>
    ensures { result ≡ added_to sums own }
{
    let active = add64(sums.active, own.active)?;
    let previous_fewest = add64(sums.previous_fewest, own.previous_fewest)?;
    let previous_most = add64(sums.previous_most, own.previous_most)?;
    let current_fewest = add64(sums.current_fewest, own.current_fewest)?;
    let current_most = add64(sums.current_most, own.current_most)?;
    let more = VoteSums {
        active: active,
        previous_fewest: previous_fewest,
        previous_most: previous_most,
        current_fewest: current_fewest,
        current_most: current_most,
    };
    Ok(more)
}

pub fn count_votes(
    current_epoch: u64,
    previous_epoch: u64,
    registry: &[u64],
    marks: &[u64],
) -> Result<VoteSums, Refusal>
    requires registry_len { length registry.now ≡ 10 * (length registry.now / 10) }
    requires marks_len { length marks.now ≡ length registry.now / 10 }
    requires previous_epoch_lt_current_epoch { previous_epoch < current_epoch }
    ensures { Counted current_epoch previous_epoch marks.now (decode registry.now) result }
{
    let n = registry.len() / 10;
    let mut sums = VoteSums {
        active: 0,
        previous_fewest: 0,
        previous_most: 0,
        current_fewest: 0,
        current_most: 0,
    };
    for i in 0..n {
        let a = 10 * i;
        let b = a + 10;
        let mark = marks[i];
        let own = entry_sums(current_epoch, previous_epoch, mark, &registry[a..b]);
        let more = added(sums, own)?;
        sums = more;
    }
    Ok(sums)
}
