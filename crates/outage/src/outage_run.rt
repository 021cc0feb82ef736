// Closes one after the other, each of a record that was prepared for it, up to the first that is refused: the head lines into lent bytes, the
// record in place.
ghost use Rattle.std.specs.Prelude.{◌/◌, length};
ghost use Rattle.definitions_file.specs.File.{contents_with};
ghost use Rattle.definitions_file.specs.OutageInput.{plan_of};
ghost use Rattle.definitions_file.specs.OutagePreparation.{prepared};
ghost use Rattle.definitions_file.specs.OutageRun.{close_once, run};
ghost use Rattle.outage.specs.Ready.{Ready};
ghost use Rattle.outage.specs.Went.{Went, Room};

use crate::outage_preparation::prepare;
use close::close_as_altair;
use definitions::{Finality, Settings};
use listing_lines::head_core;
use listing_lines::text::put_head;

// 0 or the refusal's number, the finality of the record as it then stands, and the place behind the head lines.
#[derive(Clone, Copy)]
pub struct Closed {
    pub refusal: u64,
    pub finality: Finality,
    pub last: usize,
}

// One close. Where it is refused, the record stays.
fn close_once(
    s: Settings,
    finality: Finality,
    roots: &[u8],
    registry: &mut [u64],
    slashings: &mut [u64],
    closing_registry: &mut [u64],
    closing_slashings: &mut [u64],
    text: &mut [u8],
    at: usize,
) -> Closed
    requires { Room 1 registry.old slashings.old closing_registry.old closing_slashings.old text.old at }
    ensures { Went (close_once (contents_with s finality registry.old roots.now slashings.old)) 1 text.old at
        text.new result.refusal (contents_with s result.finality registry.new roots.now slashings.new) result.last }
{
    let closed = close_as_altair(
        s,
        finality,
        &registry[..],
        &slashings[..],
        roots,
        closing_registry,
        closing_slashings,
    );
    if closed.refusal != 0 {
        return Closed {
            refusal: closed.refusal,
            finality,
            last: at,
        };
    }
    let after = closed.finality;
    let h = head_core(s, finality.slot, after, &registry[..]);
    let last = put_head(text, at, h);
    registry.copy_from_slice(&closing_registry[..]);
    slashings.copy_from_slice(&closing_slashings[..]);
    Closed {
        refusal: 0,
        finality: after,
        last,
    }
}

// One epoch: the record is prepared, and then closed.
fn try_epoch(
    s: Settings,
    finality: Finality,
    root: &[u8],
    absences: &[u64],
    registry: &mut [u64],
    slashings: &mut [u64],
    roots: &mut [u8],
    closing_registry: &mut [u64],
    closing_slashings: &mut [u64],
    text: &mut [u8],
    at: usize,
) -> Closed
    requires ready { Ready s finality.slot (length registry.old / 10) registry.old roots.old root.now absences.now }
    requires room { Room 1 registry.old slashings.old closing_registry.old closing_slashings.old text.old at }
    ensures { Went (close_once (prepared (plan_of root.now absences.now)
        (contents_with s finality registry.old roots.old slashings.old))) 1 text.old at
        text.new result.refusal (contents_with s result.finality registry.new roots.new slashings.new) result.last }
{
    let moved = prepare(s, finality, root, absences, registry, roots);
    close_once(
        s,
        moved,
        &roots[..],
        registry,
        slashings,
        closing_registry,
        closing_slashings,
        text,
        at,
    )
}

// The record and the text's front afterwards are the definition's. The two closing buffers end with any contents.
pub fn run_epochs(
    s: Settings,
    finality: Finality,
    epochs: u64,
    root: &[u8],
    absences: &[u64],
    registry: &mut [u64],
    slashings: &mut [u64],
    roots: &mut [u8],
    closing_registry: &mut [u64],
    closing_slashings: &mut [u64],
    text: &mut [u8],
) -> Closed
    requires ready { Ready s finality.slot (length registry.old / 10) registry.old roots.old root.now absences.now }
    requires room { Room epochs registry.old slashings.old closing_registry.old closing_slashings.old text.old 0 }
    ensures { Went (run (plan_of root.now absences.now) epochs
        (contents_with s finality registry.old roots.old slashings.old)) epochs text.old 0
        text.new result.refusal (contents_with s result.finality registry.new roots.new slashings.new) result.last }
{
    let mut standing = finality;
    let mut end = 0;
    for i in 0..epochs {
        let closed = try_epoch(
            s,
            standing,
            root,
            absences,
            registry,
            slashings,
            roots,
            closing_registry,
            closing_slashings,
            text,
            end,
        );
        if closed.refusal != 0 {
            return closed;
        }
        standing = closed.finality;
        end = closed.last;
    }
    Closed {
        refusal: 0,
        finality: standing,
        last: end,
    }
}
