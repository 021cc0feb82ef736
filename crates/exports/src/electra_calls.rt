// Electra's whole close (03, F-3), which is Fulu's too.
ghost use Rattle.std.specs.Prelude.{◌≡◌};
ghost use Rattle.definitions_electra_close.specs.Close.{electra_close};
ghost use Rattle.definitions_electra_close.specs.Calls.{electra_called, electra_outcome};

use definitions::Finality;
use definitions_electra::{DepositNumbers, ElectraRules, ExitChurn};
use definitions_electra_close::ElectraAnswer;

#[unsafe(no_mangle)]
pub extern "C" fn electra_close(
    rules: ElectraRules,
    finality: Finality,
    churn: ExitChurn,
    numbers: DepositNumbers,
    registry: &[u64],
    compounding: &[u64],
    slashings: &[u64],
    roots: &[u8],
    deposits: &[u64],
    consolidations: &[u64],
    closing_registry: &mut [u64],
    closing_compounding: &mut [u64],
    closing_slashings: &mut [u64],
    closing_deposits: &mut [u64],
    closing_consolidations: &mut [u64],
    amounts: &mut [u64],
    places: &mut [u64],
) -> ElectraAnswer
    ensures { electra_outcome result closing_registry.new closing_compounding.new closing_slashings.new
        closing_deposits.new closing_consolidations.new amounts.new
        ≡ electra_close (electra_called rules finality churn numbers registry.now compounding.now slashings.now
        roots.now deposits.now consolidations.now closing_registry.old
        closing_compounding.old closing_slashings.old closing_deposits.old
        closing_consolidations.old amounts.old places.old) }
{
    electra_close::electra_close(
        rules,
        finality,
        churn,
        numbers,
        registry,
        compounding,
        slashings,
        roots,
        deposits,
        consolidations,
        closing_registry,
        closing_compounding,
        closing_slashings,
        closing_deposits,
        closing_consolidations,
        amounts,
        places,
    )
}
