// A record is asked to step: 2, 3, 4, or what its instruction says. A position is asked: the records come first, then the ends.
ghost use Rattle.std.specs.Prelude.{◌≡◌, length};
ghost use Rattle.rules.specs.Layout.{state_size};
ghost use Rattle.rules.specs.Numbers.{record_number};
ghost use Rattle.keeping.specs.Demand3.{SoundMemory};
ghost use Rattle.stepping.specs.Stepped.{RunsAt};
ghost use Rattle.asking.specs.Stepped.{RecordStepped, PositionStepped};

use crate::dispatch::step_instruction;
use meetings::step_end;
use registers::Status;
use rules::{RECORD_COUNT, Record, Refusal};

// The instruction at the place of a record that runs; 4 where there is none.
fn step_running(m: &mut [u8], r: Record) -> Result<(), Refusal>
    requires m_len { length m.old ≡ state_size }
    requires sound_memory { SoundMemory m.old × RunsAt m.old (record_number r) }
    ensures { RecordStepped m.old (record_number r) result m.new }
{
    let place = registers::place_of(m, r) as usize;
    let Some(decoded) = code::decode(stepping::code(m), place) else {
        return Err(Refusal::NoInstruction);
    };
    step_instruction(m, r, place, decoded.instruction, decoded.next as u16)
}

// Any number may be asked.
pub fn step_record(m: &mut [u8], record: u32) -> Result<(), Refusal>
    requires m_len { length m.old ≡ state_size }
    requires sound_memory { SoundMemory m.old }
    ensures { RecordStepped m.old «record» result m.new }
{
    if RECORD_COUNT as u32 <= record {
        return Err(Refusal::NoRecord);
    }
    let r = Record(record as u8);
    match registers::status_of(m, r) {
        Status::Free => Err(Refusal::NoRecord),
        Status::Running => step_running(m, r),
        Status::Waiting => Err(Refusal::RecordWaiting),
    }
}

pub fn step(m: &mut [u8], position: u32) -> Result<(), Refusal>
    requires m_len { length m.old ≡ state_size }
    requires sound_memory { SoundMemory m.old }
    ensures { PositionStepped m.old position result m.new }
{
    if position < RECORD_COUNT as u32 {
        return step_record(m, position);
    }
    step_end(m, position - RECORD_COUNT as u32)
}
