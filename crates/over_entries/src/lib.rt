// One rule over the registry, entry by entry. A rule is a closure: a contract here speaks of every definition that the rule's calls keep to.
#![tactic(auto)]

ghost use Rattle.std.specs.Prelude.{◌≡◌, ◌*◌, ◌/◌, ℕ, Bool, length, map};
ghost use mathlib.Core.List.{foldl};
ghost use Rattle.definitions.specs.Checked.{Checked, map_checked, sum64};
ghost use Rattle.definitions.specs.Lists.{all, filter};
ghost use Rattle.definitions.specs.Record.{Validator, decode_one, encode_one, encode, decode};
ghost use Rattle.laws.specs.Ran.{Settles, Ran};

use arithmetic::add64;
use definitions::Refusal;

// The rule is asked of one validator's ten numbers after the other, in place, and the first refusal is the answer. The loop counts an index, here and
// in map_entries: over `as_chunks_mut` the proof did not close, since no fact that may be cited says what the lent chunks leave in the registry.
pub fn each_entry<F: Fn(&mut [u64]) -> Result<(), Refusal>>(
    rule: F,
    registry: &mut [u64],
) -> Result<(), Refusal>
    requires registry_len { length registry.old ≡ 10 * (length registry.old / 10) }
    requires callable { (e : _) → length e.now ≡ 10 → F.pre rule e }
    ensures { (f : Validator → Checked Validator) → ((e : _) (r : _) (e' : _) → length e.now ≡ 10 → F.post rule e r e' → Settles f e.now e'.now r)
        → Ran (map_checked f (decode registry.old)) registry.new result }
{
    let n = registry.len() / 10;
    for i in 0..n {
        let a = 10 * i;
        let b = a + 10;
        rule(&mut registry[a..b])?;
    }
    Ok(())
}

// The same by a rule that refuses nothing.
pub fn map_entries<F: Fn(&mut [u64])>(rule: F, registry: &mut [u64])
    requires registry_len { length registry.old ≡ 10 * (length registry.old / 10) }
    requires callable { (e : _) → length e.now ≡ 10 → F.pre rule e }
    ensures { (f : Validator → Validator) → ((e : _) (r : _) (e' : _) → length e.now ≡ 10 → F.post rule e r e' → e'.now ≡ encode_one (f (decode_one e.now)))
        → registry.new ≡ encode (map f (decode registry.old)) }
{
    let n = registry.len() / 10;
    for i in 0..n {
        let a = 10 * i;
        let b = a + 10;
        rule(&mut registry[a..b]);
    }
}

// Whether every one passes.
pub fn all_entries<F: Fn(&[u64]) -> bool>(test: F, registry: &[u64]) -> bool
    requires registry_len { length registry.now ≡ 10 * (length registry.now / 10) }
    requires callable { (e : _) → length e.now ≡ 10 → F.pre test e }
    ensures { (p : Validator → Bool) → ((e : _) (r : _) → length e.now ≡ 10 → F.post test e r → r ≡ p (decode_one e.now))
        → result ≡ all p (decode registry.now) }
{
    for entry in registry.as_chunks::<10>().0 {
        if !test(entry) {
            return false;
        }
    }
    true
}

// How many pass.
pub fn count_entries<F: Fn(&[u64]) -> bool>(test: F, registry: &[u64]) -> u64
    requires registry_len { length registry.now ≡ 10 * (length registry.now / 10) }
    requires callable { (e : _) → length e.now ≡ 10 → F.pre test e }
    ensures { (p : Validator → Bool) → ((e : _) (r : _) → length e.now ≡ 10 → F.post test e r → r ≡ p (decode_one e.now))
        → result ≡ length (filter p (decode registry.now)) }
{
    let mut count = 0u64;
    for entry in registry.as_chunks::<10>().0 {
        if !test(entry) {
            continue;
        }
        count += 1;
    }
    count
}

// The sum of a weight, refused where it leaves 64 bits.
pub fn sum_entries<F: Fn(&[u64]) -> u64>(weight: F, registry: &[u64]) -> Result<u64, Refusal>
    requires registry_len { length registry.now ≡ 10 * (length registry.now / 10) }
    requires callable { (e : _) → length e.now ≡ 10 → F.pre weight e }
    ensures { (w : Validator → ℕ) → ((e : _) (r : _) → length e.now ≡ 10 → F.post weight e r → r ≡ w (decode_one e.now))
        → result ≡ sum64 (map w (decode registry.now)) }
{
    let mut sum = 0u64;
    for entry in registry.as_chunks::<10>().0 {
        sum = add64(sum, weight(entry))?;
    }
    Ok(sum)
}

// A value that each one turns into the next.
pub fn fold_entries<S: Copy, F: Fn(S, &[u64]) -> S>(step: F, first: S, registry: &[u64]) -> S
    requires registry_len { length registry.now ≡ 10 * (length registry.now / 10) }
    requires callable { (s : _) (e : _) → length e.now ≡ 10 → F.pre step s e }
    ensures { (g : S → Validator → S) → ((s : _) (e : _) (r : _) → length e.now ≡ 10 → F.post step s e r → r ≡ g s (decode_one e.now))
        → result ≡ foldl g first (decode registry.now) }
{
    let mut state = first;
    for entry in registry.as_chunks::<10>().0 {
        state = step(state, entry);
    }
    state
}
