// The static library's functions, for C and for whatever calls C: numbers, slices and #[repr(C)] structs. Each is one of the library's own
// functions, under the prefix altair_, deneb_ or electra_ and with that function's contract; an enum comes back as a number beside its value (crate plain).
// Nothing is demanded of the caller.
#![tactic(auto)]

ghost use Rattle.std.specs.Prelude.{◌≡◌};
ghost use Rattle.exports.specs.Version.{version};

mod altair_helpers;
mod deneb_calls;
mod electra;
mod electra_calls;
mod epoch_processing;
mod exit_orders;
mod files;
mod listing;
mod opening_hours;
mod phase0_helpers;
mod shelves;
mod starting_epochs;
mod steps;
mod unknown_votes;
mod waiting;
mod whole;

// The number of this interface. It grows when a declaration changes.
#[unsafe(no_mangle)]
pub extern "C" fn altair_version() -> u64
    ensures { result ≡ version }
{
    5
}
