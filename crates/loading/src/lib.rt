// Loading a method: the image is read, and the memory is filled with the start state and the image's code. A refused image or a memory of
// another length leaves the memory as it was.

#![tactic(auto)]

ghost use Rattle.std.specs.Prelude.{◌≡◌, ◌≤◌, length as length_of};
ghost use Rattle.rules.specs.Limits.{code_limit};
ghost use Rattle.rules.specs.State.{start};
ghost use Rattle.rules.specs.Refusal.{done};
ghost use Rattle.rules.specs.Image.{read_image, code_length, code_in};
ghost use Rattle.rules.specs.Layout.{state_size, layout};
ghost use Rattle.rules.specs.Calls.{load_answer, load as load_of};
ghost use Rattle.rules.specs.Numbers.{answer_of, reply_to};
ghost use Rattle.rules.specs.Promise.{Promise};

use rules::Refusal;
use rules::offsets::{CODE_AT, STATE_SIZE};

// The start state with the code of an image that reads.
fn install(state: &mut [u8], image: &[u8], length: usize)
    requires image_reads { (length_of state.old ≡ state_size) × (read_image image.now ≡ done (code_in image.now)) }
    requires length_right { (length ≡ code_length image.now) × (length ≤ code_limit) }
    ensures { state.new ≡ layout (start (code_in image.now)) }
{
    memory::start(state);
    image::copy_code(image, state, CODE_AT);
    memory::put_code_length(state, length);
}

// 24, then 20 to 23; done, the memory holds the start state and the code.
pub fn load(state: &mut [u8], image: &[u8]) -> Result<(), Refusal>
    ensures { Promise (reply_to (load_answer state.old image.now))
        (load_of state.old image.now).memory (answer_of result) state.new }
{
    if state.len() != STATE_SIZE {
        return Err(Refusal::StateLength);
    }
    let length = image::read(image)?;
    install(state, image, length);
    Ok(())
}
