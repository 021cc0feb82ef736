// The close of a record, listed into lent bytes.
ghost use Rattle.std.specs.Prelude.{◌≡◌, true, ◌++◌, ◌+◌, ◌*◌, ◌/◌, ◌≤◌, ◌<◌, length};
ghost use Rattle.definitions.specs.Record.{decode};
ghost use Rattle.definitions.specs.Checked.{code_of};
ghost use Rattle.definitions.specs.Refusals.{registry_shaped};
ghost use Rattle.definitions.specs.Document.Phase0.Helpers.{get_current_epoch};
ghost use Rattle.definitions.specs.Raised.{raised_totals};
ghost use Rattle.definitions.specs.Rules.{altair_rules};
ghost use Rattle.definitions.specs.Close.{charged};
ghost use Rattle.close.specs.Called.{called};
ghost use Rattle.fields.specs.Put.{Put};
ghost use Rattle.definitions.specs.NetChange.{change_tests};
ghost use Rattle.definitions_file.specs.Lines.{head_line, lines, or_refused};
ghost use Rattle.listing_lines.specs.Sizes.{longest_head, longest_line};
ghost use Rattle.listing.specs.Listed.{ListedClose};

use close::close_as_altair;
use definitions::{Finality, Settings};
use listing_lines::text::{put_head, put_lines, put_refused};
use listing_lines::{changes, head_core};

// The head line and a line for each validator, or the refusal of a net change: tested before anything is put.
fn put_close(
    s: Settings,
    state_slot: u64,
    closing_finality: Finality,
    registry: &[u64],
    closing_registry: &[u64],
    text: &mut [u8],
) -> usize
    requires slots_per_epoch_nonzero { 0 < s.slots_per_epoch }
    requires registry_value { (registry_shaped registry.now ≡ true) × (length closing_registry.now ≡ length registry.now) }
    requires registry_in_bounds { longest_head + longest_line * (length registry.now / 10) ≤ length text.old }
    ensures put { Put text.old 0 (or_refused (code_of (change_tests (decode registry.now) (decode closing_registry.now)))
        (head_line (get_current_epoch s state_slot) closing_finality.current_justified_checkpoint.epoch
        closing_finality.finalized_checkpoint.epoch closing_finality.justification_bits
        (charged s state_slot (decode registry.now)) (raised_totals s state_slot (decode registry.now)) ++ lines 0
        (decode registry.now) (decode closing_registry.now))) text.new result }
    ensures upper_bound { result ≤ length text.old }
{
    if let Err(refusal) = changes(registry, closing_registry) {
        return put_refused(text, 0, refusal.number());
    }
    let h = head_core(s, state_slot, closing_finality, registry);
    let at = put_head(text, 0, h);
    put_lines(text, at, registry, closing_registry)
}

// The close of an opening, and its text or its refusal at the front of the lent bytes.
pub fn list_close(
    s: Settings,
    finality: Finality,
    registry: &[u64],
    slashings: &[u64],
    roots: &[u8],
    closing_registry: &mut [u64],
    closing_slashings: &mut [u64],
    text: &mut [u8],
) -> usize
    requires { longest_head + longest_line * (length registry.now / 10) ≤ length text.old }
    ensures { ListedClose (called (altair_rules s) finality registry.now slashings.now roots.now closing_registry.old
        closing_slashings.old) text.old text.new result }
{
    let closed = close_as_altair(
        s,
        finality,
        registry,
        slashings,
        roots,
        closing_registry,
        closing_slashings,
    );
    if closed.refusal != 0 {
        return put_refused(text, 0, closed.refusal);
    }
    let after = closed.finality;
    put_close(
        s,
        finality.slot,
        after,
        registry,
        &closing_registry[..],
        text,
    )
}
