// Writes the policy tables of a whole engine as records (document 02, Ask 8). The state is only read.
#![tactic(auto)]

ghost use Rattle.engine.specs.Buffers.{buffers};
ghost use Rattle.call_write.specs.Promises.{WroteOut, WriteExported};

use order_links::ORDERS_WORDS;
use replies::Refusal;

// Writes the policy to the front of `output`. Links that are not sound read as the empty engine, which has no record to write.
pub fn write(
    output: &mut [u8],
    policy: &[u64],
    sessions: &[u64],
    orders: &[u64],
) -> Result<usize, Refusal>
    ensures { WroteOut (buffers policy.now sessions.now orders.now) output.old output.new result }
{
    if !engine::fit(policy.len(), sessions.len(), orders.len()) {
        return Err(Refusal::Room);
    }
    let o = orders.as_array::<ORDERS_WORDS>().ok_or(Refusal::Room)?;
    if !order_links::is_sound(o) {
        return Ok(0);
    }
    policy_writing::write(output, policy)
}

// `write` for C and Rust: the reply + 256 times the number of records.
#[unsafe(no_mangle)]
pub extern "C" fn mishantral_write(
    output: &mut [u8],
    policy: &[u64],
    sessions: &[u64],
    orders: &[u64],
) -> u64
    ensures { WriteExported (buffers policy.now sessions.now orders.now) output.old output.new result }
{
    policy_writing::packed(write(output, policy, sessions, orders))
}
