// A record's 141 bytes: status, place, two counts, slots, stack, environment.
ghost use Rattle.std.specs.Prelude.{◌≡◌, length};
ghost use Rattle.rules.specs.SoundTest.{all};
ghost use Rattle.rules.specs.Layout.{record_size};
ghost use Rattle.canonical.specs.Canonical.{slot_fits, canonical_registers, canonical_record};

use crate::unused::all_zero;
use rules::offsets::{
    ENVIRONMENT_COUNT_FROM, ENVIRONMENT_FROM, RECORD_SIZE, SLOTS_FROM, STACK_COUNT_FROM,
    STACK_FROM, VALUE_SIZE,
};
use rules::{END_COUNT, ENVIRONMENT_DEPTH, STACK_DEPTH};

// Each slot is empty or holds an end.
fn slots_fit(slots: &[u8]) -> bool
    ensures { result ≡ all slot_fits slots.now }
{
    slots.iter().all(|slot| *slot <= END_COUNT as u8)
}

// A record in use.
fn registers_are_canonical(bytes: &[u8]) -> bool
    requires { length bytes.now ≡ record_size }
    ensures { result ≡ canonical_registers bytes.now }
{
    let stacked = usize::from(bytes[STACK_COUNT_FROM]);
    if STACK_DEPTH < stacked {
        return false;
    }
    let bound = usize::from(bytes[ENVIRONMENT_COUNT_FROM]);
    if ENVIRONMENT_DEPTH < bound {
        return false;
    }
    if !slots_fit(&bytes[SLOTS_FROM..STACK_FROM]) {
        return false;
    }
    let behind_stack = STACK_FROM + VALUE_SIZE * stacked;
    if !all_zero(&bytes[behind_stack..ENVIRONMENT_FROM]) {
        return false;
    }
    let behind_environment = ENVIRONMENT_FROM + VALUE_SIZE * bound;
    all_zero(&bytes[behind_environment..RECORD_SIZE])
}

pub fn record_is_canonical(bytes: &[u8]) -> bool
    requires { length bytes.now ≡ record_size }
    ensures { result ≡ canonical_record bytes.now }
{
    let status = bytes[0];
    if status == 0 {
        return all_zero(bytes);
    }
    if 2 < status {
        return false;
    }
    registers_are_canonical(bytes)
}
