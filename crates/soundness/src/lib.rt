// The soundness test of document 01, S1 to S5, on any memory of the right length.

#![tactic(auto)]

ghost use Rattle.std.specs.Prelude.{◌≡◌, length};
ghost use Rattle.rules.specs.Layout.{state_size};
ghost use Rattle.rules.specs.Calls.{sound_bytes};

use canonical::is_canonical;
use holders::ends_stand_once;
use pairs::ends_are_paired;
use stands::waiting_records_stand;
use waits::records_are_named_rightly;

mod pairs; // pairs.rt: S2
mod lasts; // lasts.rt: the last item of a queue
mod counts; // counts.rt: counts, one for each end or each record
mod holders; // holders.rt: S3
mod waits; // waits.rt: S4
mod stands; // stands.rt: S5

// The bytes are those of a sound state: S1 to S5 in turn.
pub fn is_sound(m: &[u8]) -> bool
    requires { length m.now ≡ state_size }
    ensures { result ≡ sound_bytes m.now }
{
    is_canonical(m)
        && ends_are_paired(m)
        && ends_stand_once(m)
        && records_are_named_rightly(m)
        && waiting_records_stand(m)
}
