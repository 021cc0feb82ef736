// A buffer that a call is lent to write into.
ghost use Rattle.std.specs.Prelude.{◌≡◌, is_ok, cond, length};

use definitions::Refusal;

// By the loop and not by `copy_from_slice`, for which the compiled library would ask memmove of others too.
pub fn copy(from: &[u64], to: &mut [u64])
    requires { length to.old ≡ length from.now }
    ensures { to.new ≡ from.now }
{
    let n = from.len();
    for i in 0..n {
        to[i] = from[i];
    }
}

// The opening again, where what was done on its copy was refused.
pub fn put_back(done: Result<(), Refusal>, opening: &[u64], closing: &mut [u64])
    requires { length closing.old ≡ length opening.now }
    ensures { closing.new ≡ cond (is_ok done) closing.old opening.now }
{
    if done.is_err() {
        copy(opening, closing);
    }
}
