// The text of a listing, line by line.
ghost use Rattle.std.specs.Prelude.{◌≡◌, true, [], ◌∷◌, ◌+◌, ◌*◌, ◌/◌, ◌≤◌, length};
ghost use Rattle.std.proofs.Math.IntN.{sub_ℕ};
ghost use Rattle.definitions.specs.Record.{decode};
ghost use Rattle.definitions.specs.Checked.{value};
ghost use Rattle.definitions.specs.NetChange.{change_tests};
ghost use Rattle.definitions.specs.Refusals.{registry_shaped};
ghost use Rattle.fields.specs.Put.{Put};
ghost use Rattle.definitions_file.specs.Lines.{row, raised_figures, head_line, validator_line, lines, refused_line};
ghost use Rattle.listing_lines.specs.Sizes.{longest_head, longest_line, longest_refused};

use arithmetic::signed::net_change;
use definitions::Raised;
use definitions_file::Head;
use fields::decimals::{put_change, put_labelled};

fn put_end(text: &mut [u8], at: usize) -> usize
    requires { at + 1 ≤ length text.old }
    ensures { Put text.old at (10 ∷ []) text.new result }
{
    text[at] = 10;
    at + 1
}

// Five numbers, each behind its label.
fn put_row(
    text: &mut [u8],
    at: usize,
    a: &[u8],
    k: u64,
    b: &[u8],
    l: u64,
    c: &[u8],
    m: u64,
    d: &[u8],
    n: u64,
    e: &[u8],
    o: u64,
) -> usize
    requires { at + (length a.now + length b.now + length c.now + length d.now + length e.now) + 100 ≤ length text.old }
    ensures put { Put text.old at (row a.now k b.now l c.now m d.now n e.now o)
        text.new result }
    ensures upper_bound { result ≤ at + (length a.now + length b.now + length c.now + length d.now + length e.now) + 100 }
{
    let first = put_labelled(text, at, a, k);
    let second = put_labelled(text, first, b, l);
    let third = put_labelled(text, second, c, m);
    let fourth = put_labelled(text, third, d, n);
    put_labelled(text, fourth, e, o)
}

// Which totals were raised, behind charged.
fn put_raised(text: &mut [u8], at: usize, raised: Raised) -> usize
    requires { at + 63 ≤ length text.old }
    ensures put { Put text.old at (raised_figures raised) text.new result }
    ensures upper_bound { result ≤ at + 63 }
{
    let first = put_labelled(text, at, b" ", raised.active);
    let second = put_labelled(text, first, b" ", raised.previous);
    put_labelled(text, second, b" ", raised.current)
}

pub fn put_head(text: &mut [u8], at: usize, h: Head) -> usize
    requires { at + longest_head ≤ length text.old }
    ensures put { Put text.old at (head_line h.epoch h.justified_epoch h.finalized_epoch h.justification_bits h.charged h.raised)
        text.new result }
    ensures upper_bound { result ≤ at + longest_head }
{
    let row = put_row(
        text,
        at,
        b"epoch ",
        h.epoch,
        b" justified ",
        h.justified_epoch,
        b" finalized ",
        h.finalized_epoch,
        b" bits ",
        h.justification_bits,
        b" charged ",
        h.charged,
    );
    let end = put_raised(text, row, h.raised);
    put_end(text, end)
}

// One validator's line, of its numbers in either registry and its net change.
fn put_line(
    text: &mut [u8],
    at: usize,
    index: u64,
    opening: u64,
    closing: u64,
    effective: u64,
    score: u64,
    change: i64,
) -> usize
    requires { (at + longest_line ≤ length text.old) × (change ≡ sub_ℕ closing opening) }
    ensures put { Put text.old at (validator_line index opening closing effective score) text.new result }
    ensures upper_bound { result ≤ at + longest_line }
{
    let row = put_row(
        text, at, b"", index, b" ", opening, b" ", closing, b" ", effective, b" ", score,
    );
    let end = put_change(text, row, change);
    put_end(text, end)
}

// A line for each validator. Every net change fits, so that none is left out.
pub fn put_lines(text: &mut [u8], at: usize, opening: &[u64], closing: &[u64]) -> usize
    requires opening_value { (registry_shaped opening.now ≡ true) × (length closing.now ≡ length opening.now) }
    requires opening_in_bounds { at + longest_line * (length opening.now / 10) ≤ length text.old }
    requires closing_value { change_tests (decode opening.now) (decode closing.now) ≡ value tt }
    ensures put { Put text.old at (lines 0 (decode opening.now) (decode closing.now)) text.new result }
    ensures upper_bound { result ≤ length text.old }
{
    let n = opening.len() / 10;
    let mut end = at;
    for i in 0..n {
        let a = 10 * i;
        let balance_at = a + 6;
        let score_at = a + 9;
        let before = opening[balance_at];
        let after = closing[balance_at];
        let Ok(change) = net_change(before, after) else {
            return end;
        };
        end = put_line(
            text,
            end,
            i as u64,
            before,
            after,
            closing[a],
            closing[score_at],
            change,
        );
    }
    end
}

pub fn put_refused(text: &mut [u8], at: usize, number: u64) -> usize
    requires { at + longest_refused ≤ length text.old }
    ensures put { Put text.old at (refused_line number) text.new result }
    ensures upper_bound { result ≤ at + longest_refused }
{
    let end = put_labelled(text, at, b"refused ", number);
    put_end(text, end)
}
