// The whole close under Electra: its tests, the steps on the validators of the opening, and where nothing is refused what is written behind them.
#![tactic(auto)]

ghost use Rattle.std.specs.Prelude.{◌≡◌, ◌*◌, ◌/◌, ◌≤◌, length, take};
ghost use Rattle.definitions.specs.Rust.Phase0.EpochProcessing.{reset_slashings};
ghost use Rattle.laws.specs.Bounds.{Passed};
ghost use Rattle.definitions_electra_close.specs.Close.{electra_tests, electra_close};
ghost use Rattle.electra_front.specs.Front.{opening_of};
ghost use Rattle.electra_queues.specs.Queues.{WritesQueues};
ghost use Rattle.electra_steps.specs.Last.{under};
ghost use Rattle.definitions_electra_close.specs.Calls.{electra_called, electra_outcome};
ghost use Rattle.definitions.specs.Checked.{value};
ghost use Rattle.electra_close.specs.Finish.{rotated_to, FinishLent, Finishes};
ghost use Rattle.electra_close.specs.Steps.{StepsLent, StepsRan, closed_answer};

use definitions::{Finality, Refusal};
use definitions_electra::{DepositNumbers, ElectraRules, ExitChurn};
use definitions_electra_close::ElectraAnswer;
use electra_appended::write_added;
use electra_close_tests::close_tests;
use electra_front::{Front, eight_steps, under};
use electra_queues::{Queues, last_two, write_queues};
use electra_refused::{open_queues, open_registry, opening_answer};

// How many validators there are, and how many deposits and consolidations are left.
#[derive(Clone, Copy)]
pub struct Counts {
    pub validators: u64,
    pub deposits: u64,
    pub consolidations: u64,
}

// The queues, by the validators of the opening at the front.
fn queues_by_front(
    next_epoch: u64,
    registry: &[u64],
    n: usize,
    deposits: &[u64],
    pairs: &[u64],
    index: usize,
    done: usize,
    closing_deposits: &mut [u64],
    closing_pairs: &mut [u64],
) -> Queues
    requires n_in_bounds { (10 * n ≤ length registry.now) × (length deposits.now ≡ 5 * (length deposits.now / 5)) }
    requires index_in_bounds { (index ≤ length deposits.now / 5) × (length closing_deposits.old ≡ length deposits.now) }
    requires pairs_len { (length pairs.now ≡ 2 * (length pairs.now / 2)) × (done ≤ length pairs.now / 2) }
    requires closing_pairs_len { length closing_pairs.old ≡ length pairs.now }
    ensures { WritesQueues next_epoch (take (10 * n) registry.now) deposits.now pairs.now index done
        closing_deposits.old closing_deposits.new closing_pairs.old closing_pairs.new result }
{
    let a = 10 * n;
    write_queues(
        next_epoch,
        &registry[0..a],
        deposits,
        pairs,
        index,
        done,
        closing_deposits,
        closing_pairs,
    )
}

// The last two steps, of the first `count` validators.
fn last_in_front(
    rules: ElectraRules,
    state_slot: u64,
    slashings: &[u64],
    closing_slashings: &mut [u64],
    count: usize,
    registry: &mut [u64],
)
    requires slashings_len { (length slashings.now ≡ rules.settings.epochs_per_slashings_vector) × Passed (under rules) state_slot }
    requires closing_slashings_len { (length closing_slashings.old ≡ length slashings.now) × (10 * count ≤ length registry.old) }
    ensures closing_slashings_after { closing_slashings.new ≡ reset_slashings (under rules) state_slot slashings.now }
    ensures registry_after { registry.new ≡ rotated_to (10 * count) registry.old }
{
    let b = 10 * count;
    let s = under(rules);
    last_two(
        s,
        state_slot,
        slashings,
        closing_slashings,
        &mut registry[0..b],
    );
}

// Where nothing is refused any more. The validators of the opening stand at the front of the closing registry as step 8 leaves them; `index` deposits
// and `done` consolidations are done.
pub fn finish(
    rules: ElectraRules,
    state_slot: u64,
    next_epoch: u64,
    index: usize,
    done: usize,
    compounding: &[u64],
    slashings: &[u64],
    deposits: &[u64],
    pairs: &[u64],
    closing_registry: &mut [u64],
    closing_compounding: &mut [u64],
    closing_slashings: &mut [u64],
    closing_deposits: &mut [u64],
    closing_pairs: &mut [u64],
    amounts: &mut [u64],
    places: &mut [u64],
) -> Counts
    requires { FinishLent rules state_slot index done compounding.now slashings.now deposits.now pairs.now closing_registry.old
        closing_compounding.old closing_slashings.old closing_deposits.old closing_pairs.old amounts.old places.old }
    ensures { Finishes rules state_slot next_epoch index done compounding.now slashings.now deposits.now
        pairs.now closing_registry.old closing_registry.new closing_compounding.old
        closing_compounding.new closing_slashings.new closing_deposits.old closing_deposits.new
        closing_pairs.old closing_pairs.new amounts.old amounts.new result }
{
    let n = compounding.len();
    let left = queues_by_front(
        next_epoch,
        &closing_registry[..],
        n,
        deposits,
        pairs,
        index,
        done,
        closing_deposits,
        closing_pairs,
    );
    let count = write_added(
        rules,
        n,
        deposits,
        compounding,
        index,
        closing_registry,
        closing_compounding,
        amounts,
        places,
    );
    last_in_front(
        rules,
        state_slot,
        slashings,
        closing_slashings,
        count,
        closing_registry,
    );
    Counts {
        validators: count as u64,
        deposits: left.deposits,
        consolidations: left.consolidations,
    }
}

// The steps in front: where one is refused, nothing stands elsewhere than in the first rows of the closing registry and of the amounts.
fn steps_in_front(
    rules: ElectraRules,
    finality: Finality,
    churn: ExitChurn,
    numbers: DepositNumbers,
    registry: &[u64],
    compounding: &[u64],
    slashings: &[u64],
    roots: &[u8],
    deposits: &[u64],
    pairs: &[u64],
    closing_registry: &mut [u64],
    amounts: &mut [u64],
    places: &mut [u64],
) -> Result<Front, Refusal>
    requires { StepsLent rules finality registry.now compounding.now roots.now deposits.now pairs.now closing_registry.old amounts.old
        places.old }
    ensures { StepsRan rules
        (opening_of finality churn numbers registry.now compounding.now slashings.now roots.now
        deposits.now pairs.now)
        (length compounding.now) deposits.now pairs.now closing_registry.old
        closing_registry.new amounts.old amounts.new result }
{
    let n = compounding.len();
    let a = 10 * n;
    let b = 12 * n;
    eight_steps(
        rules,
        finality,
        churn,
        numbers,
        registry,
        compounding,
        slashings,
        roots,
        deposits,
        pairs,
        &mut closing_registry[0..a],
        &mut amounts[0..b],
        places,
    )
}

// What the close answers where it is accepted.
fn closed_answer(front: Front, counts: Counts) -> ElectraAnswer
    ensures { result ≡ closed_answer front counts }
{
    let finality = front.finality;
    let raised = front.raised;
    let churn = front.churn;
    ElectraAnswer {
        refusal: 0,
        finality: finality,
        raised: raised,
        test: front.test,
        validators: counts.validators,
        deposits: counts.deposits,
        consolidations: counts.consolidations,
        deposit_balance_to_consume: front.left,
        churn: churn,
    }
}

// After the tests.
fn closed(
    rules: ElectraRules,
    finality: Finality,
    churn: ExitChurn,
    numbers: DepositNumbers,
    registry: &[u64],
    compounding: &[u64],
    slashings: &[u64],
    roots: &[u8],
    deposits: &[u64],
    consolidations: &[u64],
    closing_registry: &mut [u64],
    closing_compounding: &mut [u64],
    closing_slashings: &mut [u64],
    closing_deposits: &mut [u64],
    closing_consolidations: &mut [u64],
    amounts: &mut [u64],
    places: &mut [u64],
) -> ElectraAnswer
    requires { electra_tests
        (electra_called rules finality churn numbers registry.now compounding.now slashings.now roots.now deposits.now consolidations.now
        closing_registry.old closing_compounding.old closing_slashings.old closing_deposits.old closing_consolidations.old
        amounts.old places.old)
        ≡ value tt }
    ensures { electra_outcome result closing_registry.new closing_compounding.new closing_slashings.new
        closing_deposits.new closing_consolidations.new amounts.new
        ≡ electra_close
        (electra_called rules finality churn numbers registry.now compounding.now slashings.now roots.now
        deposits.now consolidations.now closing_registry.old closing_compounding.old
        closing_slashings.old closing_deposits.old closing_consolidations.old amounts.old
        places.old) }
{
    let ran = steps_in_front(
        rules,
        finality,
        churn,
        numbers,
        registry,
        compounding,
        slashings,
        roots,
        deposits,
        consolidations,
        closing_registry,
        amounts,
        places,
    );
    match ran {
        Ok(front) => {
            let counts = finish(
                rules,
                finality.slot,
                front.next_epoch,
                front.index,
                front.done,
                compounding,
                slashings,
                deposits,
                consolidations,
                closing_registry,
                closing_compounding,
                closing_slashings,
                closing_deposits,
                closing_consolidations,
                amounts,
                places,
            );
            closed_answer(front, counts)
        }
        Err(refusal) => {
            open_registry(
                registry,
                compounding,
                closing_registry,
                closing_compounding,
                amounts,
            );
            open_queues(
                slashings,
                deposits,
                consolidations,
                closing_slashings,
                closing_deposits,
                closing_consolidations,
            );
            opening_answer(
                refusal,
                finality,
                churn,
                numbers,
                registry,
                deposits,
                consolidations,
            )
        }
    }
}

// `places` is the working list of the keys: any contents before and afterwards.
pub fn electra_close(
    rules: ElectraRules,
    finality: Finality,
    churn: ExitChurn,
    numbers: DepositNumbers,
    registry: &[u64],
    compounding: &[u64],
    slashings: &[u64],
    roots: &[u8],
    deposits: &[u64],
    consolidations: &[u64],
    closing_registry: &mut [u64],
    closing_compounding: &mut [u64],
    closing_slashings: &mut [u64],
    closing_deposits: &mut [u64],
    closing_consolidations: &mut [u64],
    amounts: &mut [u64],
    places: &mut [u64],
) -> ElectraAnswer
    ensures { electra_outcome result closing_registry.new closing_compounding.new closing_slashings.new
        closing_deposits.new closing_consolidations.new amounts.new
        ≡ electra_close
        (electra_called rules finality churn numbers registry.now compounding.now slashings.now roots.now
        deposits.now consolidations.now closing_registry.old closing_compounding.old
        closing_slashings.old closing_deposits.old closing_consolidations.old amounts.old
        places.old) }
{
    if let Err(refusal) = close_tests(
        rules,
        finality,
        churn,
        numbers,
        registry,
        compounding,
        slashings,
        roots,
        deposits,
        consolidations,
        closing_registry,
        closing_compounding,
        closing_slashings,
        closing_deposits,
        closing_consolidations,
        amounts,
        places,
    ) {
        return opening_answer(
            refusal,
            finality,
            churn,
            numbers,
            registry,
            deposits,
            consolidations,
        );
    }
    closed(
        rules,
        finality,
        churn,
        numbers,
        registry,
        compounding,
        slashings,
        roots,
        deposits,
        consolidations,
        closing_registry,
        closing_compounding,
        closing_slashings,
        closing_deposits,
        closing_consolidations,
        amounts,
        places,
    )
}
