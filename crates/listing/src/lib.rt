// The listing of a record file: the close as text, or the refusal. Nothing is written before all of it is known.
#![tactic(auto)]

ghost use Rattle.std.specs.Prelude.{◌≡◌, ◌≤◌, length, take};
ghost use Rattle.fields.specs.Put.{Put};
ghost use Rattle.definitions_file.specs.Listing.{listing};
ghost use Rattle.listing.specs.Printed.{Exact, printed_text, printed_length};

pub mod listing_close;

use crate::listing_close::list_close;
use definitions::Refusal;
use definitions_file::{LONGEST_LISTING, MOST_INPUT};
use listing_lines::text::put_refused;
use record_file::{file_roots, read_file, read_header};

// The registries and the slashings are read and closed into the four buffers.
fn list_record(
    bytes: &[u8],
    registry: &mut [u64],
    slashings: &mut [u64],
    closing_registry: &mut [u64],
    closing_slashings: &mut [u64],
    text: &mut [u8],
) -> usize
    requires { Exact bytes.now registry.old slashings.old closing_registry.old closing_slashings.old text.old }
    ensures put { Put text.old 0 (listing bytes.now) text.new result }
    ensures upper_bound { result ≤ length text.old }
{
    let opened = read_file(bytes, registry, slashings);
    if opened.refusal != 0 {
        return put_refused(text, 0, opened.refusal);
    }
    let roots = file_roots(bytes);
    let s = opened.settings;
    let finality = opened.finality;
    list_close(
        s,
        finality,
        &registry[..],
        &slashings[..],
        roots,
        closing_registry,
        closing_slashings,
        text,
    )
}

// Long enough for the ten numbers of 814 validators, and for 8146 slashings: 65536 bytes hold no more.
fn room() -> [u64; 8146]
    ensures { 8146 ≡ length result }
{
    [0; 8146]
}

// The text's length. A text of 103585 bytes is long enough for every file; where a shorter one is lent the answer is 0 and nothing is
// written.
pub fn list_file(bytes: &[u8], text: &mut [u8]) -> usize
    ensures value { result ≡ printed_length bytes.now text.old }
    ensures text_after { text.new ≡ printed_text bytes.now text.old }
    ensures upper_bound { (result ≤ length text.new) × (result ≡ length (take result text.new)) }
{
    if text.len() < LONGEST_LISTING {
        return 0;
    }
    if MOST_INPUT < bytes.len() {
        return put_refused(text, 0, Refusal::BadFile.number());
    }
    let h = read_header(bytes);
    let n = 10 * (h.validators as usize);
    let l = h.slashings as usize;
    let mut registry = room();
    let mut slashings = room();
    let mut closing_registry = room();
    let mut closing_slashings = room();
    list_record(
        bytes,
        &mut registry[..n],
        &mut slashings[..l],
        &mut closing_registry[..n],
        &mut closing_slashings[..l],
        text,
    )
}
