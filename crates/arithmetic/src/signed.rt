// The difference of two 64-bit numbers as a signed one.
ghost use Rattle.std.specs.Prelude.{◌≡◌};
ghost use Rattle.definitions.specs.NetChange.{net_change};

use definitions::Refusal;

// Closing minus opening, by cases: neither difference wraps, and -1 - loss reaches the least number.
pub fn net_change(opening: u64, closing: u64) -> Result<i64, Refusal>
    ensures { result ≡ net_change opening closing }
{
    if opening <= closing {
        let gain = closing - opening;
        if gain < 9223372036854775808 {
            return Ok(gain as i64);
        }
        return Err(Refusal::SignedOverflow);
    }
    let loss = opening - closing - 1;
    if loss < 9223372036854775808 {
        return Ok(-1 - (loss as i64));
    }
    Err(Refusal::SignedOverflow)
}
