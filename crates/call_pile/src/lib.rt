// The morning pile (document 02, Ask 3): many requests in one call. The links are checked once. If they are sound, each record is performed as a settled
// request; if not, as an ordinary request, which writes nothing unless it is granted.
#![tactic(auto)]

ghost use Rattle.std.specs.Prelude.{◌≡◌, true, ◌*◌, ◌≤◌, length};
ghost use Rattle.paper_lower.specs.Checks.{first};
ghost use Rattle.replies.specs.Replies.{number_of};
ghost use Rattle.engine.specs.Buffers.{buffers, fit};
ghost use Rattle.order_links.specs.Chains.{sound_of};
ghost use Rattle.engine.specs.Answers.{Requested};
ghost use Rattle.call_pile.specs.Pile.{pile_checks};
ghost use Rattle.call_pile.specs.Promises.{PileDone, Answers};

use order_links::ORDERS_WORDS;
use replies::{Outcome, Refusal, Reply};

// The largest number of records in one call.
pub const MOST: usize = 4096;

// Performs one request; it skips the check of the links if they are known to be sound. Then it also tries the fast path for checks first.
fn ask(
    bytes: &[u8],
    sound: bool,
    policy: &mut [u64],
    sessions: &mut [u64],
    orders: &mut [u64],
) -> Outcome
    requires { sound ≡ true → sound_of orders.old ≡ true }
    ensures { Requested bytes.now (buffers policy.old sessions.old orders.old) (buffers policy.new sessions.new orders.new) result }
{
    if sound {
        if let Some(reply) = engine::quick(bytes, policy, sessions, orders) {
            return replies::plain(reply);
        }
        return engine::settled_request(bytes, policy, sessions, orders);
    }
    engine::request(bytes, policy, sessions, orders)
}

// Performs the first n records of `bytes` as requests, in order, and writes their replies to the front of `out`.
fn answer_all(
    bytes: &[u8],
    n: usize,
    out: &mut [u8],
    sound: bool,
    policy: &mut [u64],
    sessions: &mut [u64],
    orders: &mut [u64],
)
    requires { (16 * n ≤ length bytes.now) × ((n ≤ length out.old) × ((fit (buffers policy.old sessions.old orders.old) ≡ true) × (sound ≡ true → sound_of orders.old ≡ true))) }
    ensures { Answers n bytes.now (buffers policy.old sessions.old orders.old) (buffers policy.new sessions.new orders.new) out.old out.new }
{
    let mut at = 0;
    for i in 0..n {
        let end = at + 16;
        let outcome = ask(&bytes[at..end], sound, policy, sessions, orders);
        out[i] = replies::number(replies::reply(outcome)) as u8;
        at = end;
    }
}

// Checks for the refusals of the whole call, before any request is performed.
fn judge(
    bytes: &[u8],
    answers: &[u8],
    at: usize,
    policy: &[u64],
    sessions: &[u64],
    orders: &[u64],
) -> Reply
    ensures { number_of result ≡ first (pile_checks (fit (buffers policy.now sessions.now orders.now)) bytes.now answers.now at) }
{
    if !engine::fit(policy.len(), sessions.len(), orders.len()) {
        return Err(Refusal::Room);
    }
    if answers.len() < at {
        return Err(Refusal::Room);
    }
    let n = bytes.len() / 16;
    if answers.len() - at < n {
        return Err(Refusal::Room);
    }
    if MOST < n {
        return Err(Refusal::Room);
    }
    if bytes.len() % 16 != 0 {
        return Err(Refusal::Shape);
    }
    Ok(())
}

// Performs the records of `bytes` as requests, and writes their replies into `answers` from index `at` on.
pub fn pile(
    bytes: &[u8],
    answers: &mut [u8],
    at: usize,
    policy: &mut [u64],
    sessions: &mut [u64],
    orders: &mut [u64],
) -> Reply
    ensures { PileDone bytes.now answers.old at answers.new (buffers policy.old sessions.old orders.old) (buffers policy.new sessions.new orders.new) (number_of result) }
{
    judge(bytes, answers, at, policy, sessions, orders)?;
    let o = orders.as_array::<ORDERS_WORDS>().ok_or(Refusal::Room)?;
    let sound = order_links::is_sound(o);
    answer_all(
        bytes,
        bytes.len() / 16,
        &mut answers[at..],
        sound,
        policy,
        sessions,
        orders,
    );
    Ok(())
}

// `pile` for C and Rust: the reply's number.
#[unsafe(no_mangle)]
pub extern "C" fn mishantral_pile(
    bytes: &[u8],
    answers: &mut [u8],
    at: u64,
    policy: &mut [u64],
    sessions: &mut [u64],
    orders: &mut [u64],
) -> u64
    ensures { PileDone bytes.now answers.old at answers.new (buffers policy.old sessions.old orders.old) (buffers policy.new sessions.new orders.new) result }
{
    let r = pile(bytes, answers, at as usize, policy, sessions, orders);
    replies::number(r)
}
