// Counts, one for each end or each record. They are of two bytes: bytes that are no sound state may name one end more than 255 times.
// Slots, split items and waits are each counted by a loop of their own: the three begin with other counts, go over records or ends, and
// stay below other limits, so that one function for them would be given all of these and say less.
ghost use Rattle.std.specs.Prelude.{◌≡◌, ◌+◌, ◌<◌, length, get_or, set};
ghost use Rattle.soundness.specs.Counts.{counter_limit};

pub fn add_one(counts: &mut [u16], at: usize)
    requires { (at < length counts.old) × (get_or counts.old at 0 < counter_limit) }
    ensures { counts.new ≡ set counts.old at (get_or counts.old at 0 + 1) }
{
    counts[at] = counts[at] + 1;
}
