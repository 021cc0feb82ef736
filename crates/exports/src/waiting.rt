// How long a validator waits for activation.
ghost use Rattle.std.specs.Prelude.{◌≡◌};
ghost use Rattle.definitions_wait.specs.Wait.{activation_wait};

use definitions::Settings;
use definitions_wait::WaitAnswer;

#[unsafe(no_mangle)]
pub extern "C" fn altair_activation_wait(
    s: Settings,
    finalized_epoch: u64,
    registry: &[u64],
    index: u64,
) -> WaitAnswer
    ensures { result ≡ activation_wait s finalized_epoch registry.now index }
{
    activation_wait::activation_wait(s, finalized_epoch, registry, index)
}
