// Settings by starting epoch (02, R-10): the rules of an epoch, and one entry more.
ghost use Rattle.std.specs.Prelude.{◌≡◌};
ghost use Rattle.definitions_close.specs.Store.{read_rules, rules_answer_for, added};
ghost use Rattle.definitions_close.specs.Calls.{lent, new_entry, add_outcome};

use definitions::Rules;
use definitions_close::{CountAnswer, RulesAnswer};
use store::{add_rules, read_rules};

#[unsafe(no_mangle)]
pub extern "C" fn altair_read_rules(store: &[u64], count: u64, epoch: u64) -> RulesAnswer
    ensures { result ≡ rules_answer_for (read_rules (lent store.now count) epoch) }
{
    read_rules(store, count, epoch)
}

#[unsafe(no_mangle)]
pub extern "C" fn altair_add_rules(
    store: &mut [u64],
    count: u64,
    start: u64,
    rules: Rules,
) -> CountAnswer
    ensures { add_outcome result store.new ≡ added (lent store.old count) (new_entry start rules) }
{
    add_rules(store, count, start, rules)
}
