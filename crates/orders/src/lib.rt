// Exit orders of a close that is run one step a call: taking one, and the ninth call, which carries them out.
#![tactic(auto)]

ghost use Rattle.std.specs.Prelude.{◌≡◌, ◌&&◌, ◌+◌, ◌*◌, ◌/◌, ◌≤◌, ◌<◌, leb, length, set};
ghost use Rattle.definitions.specs.Record.{decode_one, decode};
ghost use Rattle.definitions.specs.ExitQueue.{queue_of};
ghost use Rattle.definitions_close.specs.CloseBySteps.{turned_away};
ghost use Rattle.definitions_close.specs.Orders.{orders_shaped, take_order, room};
ghost use Rattle.definitions_close.specs.Calls.{order, order_called, order_outcome};
ghost use Rattle.validator_exit.specs.Exits.{LeavesPair};
ghost use Rattle.orders.specs.Tried.{entry_may_exit, order_by, AllTried};

pub mod ninth_call;

use definitions::{ACTIVATION_EPOCH, EXIT_EPOCH, ExitQueue, FAR_FUTURE_EPOCH, Refusal};
use definitions_close::{Running, RunningAnswer};
use entries::entry_is_active;
use validator_exit::exit_in_place;

pub fn turned_away(refusal: Refusal, running: Running) -> RunningAnswer
    ensures { result ≡ turned_away refusal running }
{
    RunningAnswer {
        refusal: refusal.number(),
        ended: 0,
        running,
    }
}

// After the first step and before the end.
fn takes_orders(done: u64) -> bool
    ensures { result ≡ (leb 1 done && leb done 8) }
{
    (1 <= done) & (done <= 8)
}

// Two numbers an order, and no more orders in use than there is room for.
pub fn orders_shaped(count: u64, orders: &[u64]) -> bool
    ensures { result ≡ orders_shaped count orders.now }
{
    let n = orders.len();
    (n % 2 == 0) & (count <= (n / 2) as u64)
}

fn put_order(count: usize, validator: u64, start: u64, orders: &mut [u64])
    requires { count < room orders.old }
    ensures { orders.new ≡ set (set orders.old (2 * count) validator) (2 * count + 1) start }
{
    let at = 2 * count;
    orders[at] = validator;
    orders[at + 1] = start;
}

// The order is put behind those that are in the list.
pub fn take_order(running: Running, validator: u64, start: u64, orders: &mut [u64]) -> RunningAnswer
    ensures { order_outcome result orders.new ≡ take_order (order_called running validator start orders.old) }
{
    let done = running.done;
    if done == 9 {
        return RunningAnswer {
            refusal: 0,
            ended: 1,
            running,
        };
    }
    if !takes_orders(done) {
        return turned_away(Refusal::BadShape, running);
    }
    let count = running.orders;
    if !orders_shaped(count, &orders[..]) {
        return turned_away(Refusal::BadShape, running);
    }
    let room = orders.len() / 2;
    if room <= count as usize {
        return turned_away(Refusal::FullList, running);
    }
    put_order(count as usize, validator, start, orders);
    let answer = running.answer;
    RunningAnswer {
        refusal: 0,
        ended: 0,
        running: Running {
            done,
            answer,
            orders: count + 1,
        },
    }
}

fn entry_may_exit(epoch: u64, entry: &[u64]) -> bool
    requires { length entry.now ≡ 10 }
    ensures { result ≡ entry_may_exit epoch (decode_one entry.now) }
{
    entry_is_active(entry, epoch) & (entry[EXIT_EPOCH] == FAR_FUTURE_EPOCH)
}

// `activation` is at most the epoch, as an active validator's is.
fn is_due(epoch: u64, period: u64, activation: u64, start: u64) -> bool
    requires { activation ≤ epoch }
    ensures { result ≡ (leb start epoch && leb (activation + period) epoch) }
{
    if epoch < start {
        return false;
    }
    period <= epoch - activation
}

// One order on the record as it stands: the pair afterwards. Refused, it changes nothing.
fn try_order(
    epoch: u64,
    period: u64,
    least: u64,
    limit: u64,
    delay: u64,
    validator: u64,
    start: u64,
    queue: ExitQueue,
    registry: &mut [u64],
    n: usize,
) -> Result<ExitQueue, Refusal>
    requires registry_len { (length registry.old ≡ 10 * n) × (least < 18446744073709551615) }
    requires queue_value { queue ≡ queue_of (decode registry.old) }
    ensures { LeavesPair (order_by epoch period least limit delay (decode registry.old) (order validator start)) registry.old
        registry.new result }
{
    let index = validator as usize;
    if n <= index {
        return Err(Refusal::NoExit);
    }
    let a = 10 * index;
    let b = a + 10;
    if !entry_may_exit(epoch, &registry[a..b]) {
        return Err(Refusal::NoExit);
    }
    let activation = registry[10 * index + ACTIVATION_EPOCH];
    if !is_due(epoch, period, activation, start) {
        return Err(Refusal::TooEarly);
    }
    exit_in_place(registry, n, index, queue, least, limit, delay)
}

// All in order of arrival, each seeing the exits before it.
pub fn try_all(
    epoch: u64,
    period: u64,
    least: u64,
    limit: u64,
    delay: u64,
    first: ExitQueue,
    registry: &mut [u64],
    n: usize,
    orders: &[u64],
    count: usize,
    answers: &mut [u64],
) -> ExitQueue
    requires registry_len { (length registry.old ≡ 10 * n) × (least < 18446744073709551615) }
    requires first_value { first ≡ queue_of (decode registry.old) }
    requires count_bound { (count ≤ room orders.now) × (count ≤ length answers.old) }
    ensures { AllTried (order_by epoch period least limit delay) registry.old orders.now answers.old count registry.new
        answers.new result }
{
    let mut queue = first;
    for i in 0..count {
        let at = 2 * i;
        let validator = orders[at];
        let start = orders[at + 1];
        match try_order(
            epoch, period, least, limit, delay, validator, start, queue, registry, n,
        ) {
            Ok(moved) => {
                answers[i] = 0;
                queue = moved;
            }
            Err(refusal) => {
                answers[i] = refusal.number();
            }
        }
    }
    queue
}
