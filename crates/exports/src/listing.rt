// What the lines of a listing tell, as numbers.
ghost use Rattle.std.specs.Prelude.{◌≡◌};
ghost use Rattle.definitions_file.specs.ListingAnswers.{head_of, line_of};
ghost use Rattle.definitions.specs.NetChange.{net_change, plain_change};

use definitions::{Finality, PlainChange, Settings};
use definitions_file::{Head, Line};
use plain::plain_change;

// Of the opening's slot and registry, and of the finality that the close gave.
#[unsafe(no_mangle)]
pub extern "C" fn altair_listing_head(
    s: Settings,
    state_slot: u64,
    closing: Finality,
    opening: &[u64],
) -> Head
    ensures { result ≡ head_of s state_slot closing opening.now }
{
    listing_lines::head(s, state_slot, closing, opening)
}

#[unsafe(no_mangle)]
pub extern "C" fn altair_listing_line(opening: &[u64], closing: &[u64], index: u64) -> Line
    ensures { result ≡ line_of opening.now closing.now index }
{
    listing_lines::line(opening, closing, index)
}

// Closing minus opening, of any two balances.
#[unsafe(no_mangle)]
pub extern "C" fn altair_net_change(opening: u64, closing: u64) -> PlainChange
    ensures { result ≡ plain_change (net_change opening closing) }
{
    plain_change(arithmetic::signed::net_change(opening, closing))
}
