// The instructions that change which processes there are, or which code one runs, each on a memory known to be sound: run, plug, same.

#![tactic(auto, using(keeping::proofs::Memories::memory_length))]

mod calling; // calling.rt: run
mod joining; // joining.rt: same
mod plugging; // plugging.rt: plug

pub use calling::run;
pub use joining::same;
pub use plugging::plug;
