// The numbers of a head and a line that are refused.
ghost use Rattle.std.specs.Prelude.{◌≡◌};
ghost use Rattle.definitions_file.specs.ListingAnswers.{no_head, no_line};

use definitions_file::{Head, Line};
use totals::raising::none_raised;

pub fn no_head(refusal: u64) -> Head
    ensures { result ≡ no_head refusal }
{
    Head {
        refusal,
        epoch: 0,
        justified_epoch: 0,
        finalized_epoch: 0,
        justification_bits: 0,
        charged: 0,
        raised: none_raised(),
    }
}

pub fn no_line(refusal: u64) -> Line
    ensures { result ≡ no_line refusal }
{
    Line {
        refusal,
        index: 0,
        opening_balance: 0,
        closing_balance: 0,
        effective_balance: 0,
        inactivity_score: 0,
        net_change: 0,
    }
}
