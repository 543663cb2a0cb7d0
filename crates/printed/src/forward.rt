// One step of a run, with what it prints. The runner finds the position and makes the step; what the step prints is read at that position
// from a copy of the memory before it.
ghost use Rattle.std.specs.Prelude.{◌≡◌, ◌<◌, length};
ghost use Rattle.rules.specs.Limits.{position_count};
ghost use Rattle.rules.specs.Run.{next_step};
ghost use Rattle.rules.specs.Layout.{state_size, view};
ghost use Rattle.keeping.specs.Demand3.{SoundMemory};
ghost use Rattle.printed.specs.Forwarded.{Forwarded};

use crate::kinds::Printed;
use crate::reading::printed_at;
use rules::offsets::STATE_SIZE;
use runner::step_from;

// The step that is made next, if one can be made: what it prints.
pub fn step_forward(m: &mut [u8], position: u32) -> Option<Printed>
    requires m_len { (length m.old ≡ state_size) × (position < position_count) }
    requires sound_memory { SoundMemory m.old }
    ensures { Forwarded m.old (next_step (view m.old) position) result m.new }
{
    let mut before = [0; STATE_SIZE];
    words::copy(m, &mut before, 0);
    let p = step_from(m, position)?;
    Some(printed_at(&before, p))
}
