// The settled request for C and Rust: `engine::settled_request`, with a fast path for checks. It has its own crate because a crate that exports functions is
// compiled separately; here the compiler turns the whole request into one function.
#![tactic(auto)]

ghost use Rattle.engine.specs.Buffers.{buffers};
ghost use Rattle.engine.specs.Settling.{SettledExported};

// Performs any request. Two details of the source keep this a separate function in the compiled code, reached by one jump, so that a check does not need its
// stack frame: it has two callers, and it passes the bytes on as `&*bytes` (DECISIONS D166).
fn general(bytes: &[u8], policy: &mut [u64], sessions: &mut [u64], orders: &mut [u64]) -> u64
    ensures { SettledExported bytes.now (buffers policy.old sessions.old orders.old) (buffers policy.new sessions.new orders.new) result }
{
    match engine::settled_request(&*bytes, policy, sessions, orders) {
        Ok(()) => 0,
        Err(refused) => u64::from(refused.refusal) + 256 * refused.place,
    }
}

// Performs one request without checking the links; it requires nothing of its caller. On sound links, which mishantral_settle and a load leave and this call
// preserves, it does what mishantral_request does. On other links the buffers keep their lengths, the reply is one of the table, and a refusal changes no
// word. Most requests are checks, so it tries those first.
#[unsafe(no_mangle)]
pub extern "C" fn mishantral_settled_request(
    bytes: &[u8],
    policy: &mut [u64],
    sessions: &mut [u64],
    orders: &mut [u64],
) -> u64
    ensures { SettledExported bytes.now (buffers policy.old sessions.old orders.old) (buffers policy.new sessions.new orders.new) result }
{
    if !records::is_check(bytes) {
        return general(bytes, policy, sessions, orders);
    }
    match engine::quick(bytes, policy, sessions, orders) {
        Some(reply) => replies::number(reply),
        None => general(bytes, policy, sessions, orders),
    }
}
