// Decimal numbers put into lent bytes.
ghost use Rattle.std.specs.Prelude.{◌+◌, ◌≤◌, ◌<◌, ◌≡◌, ◌∷◌, ◌++◌, length};
ghost use Rattle.std.proofs.Math.IntN.{sub_ℕ};
ghost use Rattle.definitions_file.specs.Decimal.{digit as digit_of, decimal, signed_decimal};
ghost use Rattle.fields.specs.Put.{Put};

fn digit(d: u64) -> u8
    requires { d < 10 }
    ensures { result ≡ digit_of d }
{
    48 + d as u8
}

// All digits but the last, which are those of a tenth, and then the last.
pub fn put_decimal(text: &mut [u8], at: usize, n: u64) -> usize
    requires { at + length (decimal n) ≤ length text.old }
    ensures { Put text.old at (decimal n) text.new result }
{
    if n < 10 {
        text[at] = digit(n);
        return at + 1;
    }
    let last = put_decimal(text, at, n / 10);
    text[last] = digit(n % 10);
    last + 1
}

// A label and a number behind it. No 64-bit number has more than 20 digits.
pub fn put_labelled(text: &mut [u8], at: usize, label: &[u8], n: u64) -> usize
    requires { at + length label.now + 20 ≤ length text.old }
    ensures put { Put text.old at (label.now ++ decimal n) text.new result }
    ensures upper_bound { result ≤ at + length label.now + 20 }
{
    crate::put_bytes(text, at, label);
    put_decimal(text, at + label.len(), n)
}

// A blank, and a signed number behind it: -1 - change is no loss of the least number, whose magnitude does not fit.
pub fn put_change(text: &mut [u8], at: usize, change: i64) -> usize
    requires { at + 22 ≤ length text.old }
    ensures put { Put text.old at (32 ∷ signed_decimal change) text.new result }
    ensures upper_bound { result ≤ at + 22 }
{
    if change < 0 {
        let less = (-1 - change) as u64;
        return put_labelled(text, at, b" -", less + 1);
    }
    put_labelled(text, at, b" ", change as u64)
}
