// The engine: the load and the request, over three buffers that the caller lends (docs/STATE.md). They accept any bytes and any content of the buffers, and
// always answer. "Links" are the chains of entries in the orders buffer; `order_links::is_sound` checks that they and the kept figures are consistent.
#![tactic(auto)]

ghost use Rattle.std.specs.Prelude.{◌≡◌, false};
ghost use Rattle.paper_lower.specs.Forms.{request_forms};
ghost use Rattle.replies.specs.Replies.{outcome_reply, outcome_place};
ghost use Rattle.records.specs.Limits.{Limits};
ghost use Rattle.order_links.specs.Chains.{sound_of};
ghost use Rattle.engine.specs.Buffers.{buffers, no_engine, tables_of, fit_words};
ghost use Rattle.engine.specs.Step.{AnyStep, SettlingStep};
ghost use Rattle.engine.specs.Answers.{Requested, LoadDone};
ghost use Rattle.engine.specs.Settling.{Settled, SettledAs, SettledRequest, QuickRequest};
ghost use Rattle.engine.specs.Exports.{LoadExported, RequestExported, words_of};

use order_links::{ORDERS_WORDS, OrdersBuffer};
pub use order_stuck::ANSWER_WORDS;
use policy::{POLICY_WORDS, PolicyBuffer};
use records::{Call, Record};
use replies::{Outcome, Refusal, Refused, Reply, plain};
use sessions::{SESSIONS_WORDS, SessionsBuffer};

// Performs a request that has passed SHAPE and RANGE, without checking the links. Kinds that need entries, orders or claim rules are handled here, all others
// by the lower part. Only a claim's reply carries a place. The other replies become an outcome in one place, at the end
// (DECISIONS D265).
fn step(r: Record, p: &mut PolicyBuffer, s: &mut SessionsBuffer, o: &mut OrdersBuffer) -> Outcome
    requires { Limits request_forms r }
    ensures { AnyStep r (buffers p.old s.old o.old) (buffers p.new s.new o.new) result }
{
    let kind = r.kind;
    let reply = match kind {
        33 => order_requests::delete(p, s, o, r.a),
        41 => order_requests::destroy(s, o, r.a),
        48 => order_requests::open_order(p, o, r.a, r.b),
        49 => order_requests::end_order(o, r.a),
        50 => return order_claims::claim(p, s, o, r.a, r.b, r.c),
        51 => order_claims::release(p, s, o, r.a, r.b, r.c),
        52 => order_claims::finish(p, s, o, r.a, r.b, r.c),
        57 => order_claims::task_check_reply(p, s, o, r.a, r.b, r.c, r.m),
        58 => order_requests::figures_reply(o, r.a),
        60 => order_stuck::judge(p, r.a),
        _ => lower::step(r, p, s),
    };
    plain(reply)
}

// Performs such a request on links that are not sound. That state reads as the empty engine, which grants only one request: to add a user without roles.
fn as_empty(
    r: Record,
    p: &mut PolicyBuffer,
    s: &mut SessionsBuffer,
    o: &mut OrdersBuffer,
) -> Outcome
    requires { Limits request_forms r × (sound_of o.old ≡ false) }
    ensures { SettlingStep no_engine r (buffers p.old s.old o.old) (buffers p.new s.new o.new) result }
{
    if (r.kind != 32) | (r.m != 0) {
        return Err(Refused::from(Refusal::Unknown));
    }
    policy::clear(p);
    sessions::clear(s);
    order_entries::clear(o);
    step(r, p, s, o)
}

// Performs such a request on any content: checks the links first.
fn act(r: Record, p: &mut PolicyBuffer, s: &mut SessionsBuffer, o: &mut OrdersBuffer) -> Outcome
    requires { Limits request_forms r }
    ensures { SettlingStep (tables_of (buffers p.old s.old o.old)) r (buffers p.old s.old o.old) (buffers p.new s.new o.new) result }
{
    if !order_links::is_sound(o) {
        return as_empty(r, p, s, o);
    }
    step(r, p, s, o)
}

// Whether the three buffers, given by their numbers of words, have their fixed lengths.
pub fn fit(policy: usize, sessions: usize, orders: usize) -> bool
    ensures { result ≡ fit_words policy sessions orders }
{
    (policy == POLICY_WORDS) & (sessions == SESSIONS_WORDS) & (orders == ORDERS_WORDS)
}

// Performs one request, given as any bytes, on any content of the buffers. It is inlined, so that its outcome is not copied on its way to the caller
// (DECISIONS D265).
#[inline(always)]
pub fn request(
    bytes: &[u8],
    policy: &mut [u64],
    sessions: &mut [u64],
    orders: &mut [u64],
) -> Outcome
    ensures { Requested bytes.now (buffers policy.old sessions.old orders.old) (buffers policy.new sessions.new orders.new) result }
{
    let Some(p) = policy.as_mut_array::<POLICY_WORDS>() else {
        return Err(Refused::from(Refusal::Room));
    };
    let Some(s) = sessions.as_mut_array::<SESSIONS_WORDS>() else {
        return Err(Refused::from(Refusal::Room));
    };
    let Some(o) = orders.as_mut_array::<ORDERS_WORDS>() else {
        return Err(Refused::from(Refusal::Room));
    };
    records::judge(Call::Request, bytes)?;
    act(records::decode(bytes), p, s, o)
}

// Makes the links sound without changing what the buffers read as. A caller who owns the buffers calls it once and then uses `settled_request`.
pub fn settle(policy: &mut [u64], sessions: &mut [u64], orders: &mut [u64]) -> Reply
    ensures { Settled (buffers policy.old sessions.old orders.old) (buffers policy.new sessions.new orders.new) result }
{
    let Some(p) = policy.as_mut_array::<POLICY_WORDS>() else {
        return Err(Refusal::Room);
    };
    let Some(s) = sessions.as_mut_array::<SESSIONS_WORDS>() else {
        return Err(Refusal::Room);
    };
    let Some(o) = orders.as_mut_array::<ORDERS_WORDS>() else {
        return Err(Refusal::Room);
    };
    if order_links::is_sound(o) {
        return Ok(());
    }
    policy::clear(p);
    sessions::clear(s);
    order_entries::clear(o);
    Ok(())
}

// Performs one request without checking the links. On links that are not sound it promises only two things: the buffers keep their lengths, and a refusal
// changes no word.
pub fn settled_request(
    bytes: &[u8],
    policy: &mut [u64],
    sessions: &mut [u64],
    orders: &mut [u64],
) -> Outcome
    ensures { SettledRequest bytes.now (buffers policy.old sessions.old orders.old) (buffers policy.new sessions.new orders.new) result }
{
    let Some(p) = policy.as_mut_array::<POLICY_WORDS>() else {
        return Err(Refused::from(Refusal::Room));
    };
    let Some(s) = sessions.as_mut_array::<SESSIONS_WORDS>() else {
        return Err(Refused::from(Refusal::Room));
    };
    let Some(o) = orders.as_mut_array::<ORDERS_WORDS>() else {
        return Err(Refused::from(Refusal::Room));
    };
    records::judge(Call::Request, bytes)?;
    step(records::decode(bytes), p, s, o)
}

// Answers a check (kind 56) in the usual case: a policy without walls, and at most two permissions in the bucket of the pair. Otherwise it returns `None`, and
// the caller makes a full request of the same bytes. It writes nothing, and its compiled code uses no stack.
pub fn quick(bytes: &[u8], policy: &[u64], sessions: &[u64], orders: &[u64]) -> Option<Reply>
    ensures { QuickRequest bytes.now (buffers policy.now sessions.now orders.now) result }
{
    let p = policy.as_array::<POLICY_WORDS>()?;
    let s = sessions.as_array::<SESSIONS_WORDS>()?;
    if (orders.len() != ORDERS_WORDS) | !records::is_check(bytes) {
        return None;
    }
    let r = records::decode(bytes);
    session_subjects::quick_reply(p, s, r.a, r.b, r.c)
}

// Loads a policy, given as any bytes. Afterwards no subject is live, no order is open and no entry is in use.
pub fn load(bytes: &[u8], policy: &mut [u64], sessions: &mut [u64], orders: &mut [u64]) -> Outcome
    ensures { LoadDone bytes.now (buffers policy.old sessions.old orders.old) (buffers policy.new sessions.new orders.new) (outcome_reply result) (outcome_place result) }
{
    let Some(p) = policy.as_mut_array::<POLICY_WORDS>() else {
        return Err(Refused::from(Refusal::Room));
    };
    let Some(s) = sessions.as_mut_array::<SESSIONS_WORDS>() else {
        return Err(Refused::from(Refusal::Room));
    };
    let Some(o) = orders.as_mut_array::<ORDERS_WORDS>() else {
        return Err(Refused::from(Refusal::Room));
    };
    order_entries::clear(o);
    lower::load(bytes, p, s)
}

// ---- For C and Rust. The answer is one number: the reply + 256 times the place.

// `load` for C and Rust.
#[unsafe(no_mangle)]
pub extern "C" fn mishantral_load(
    bytes: &[u8],
    policy: &mut [u64],
    sessions: &mut [u64],
    orders: &mut [u64],
) -> u64
    ensures { LoadExported bytes.now (buffers policy.old sessions.old orders.old) (buffers policy.new sessions.new orders.new) result }
{
    let outcome = load(bytes, policy, sessions, orders);
    replies::number(replies::reply(outcome)) + 256 * (replies::place(outcome) % 36028797018963968)
}

// `request` for C and Rust.
#[unsafe(no_mangle)]
pub extern "C" fn mishantral_request(
    bytes: &[u8],
    policy: &mut [u64],
    sessions: &mut [u64],
    orders: &mut [u64],
) -> u64
    ensures { RequestExported bytes.now (buffers policy.old sessions.old orders.old) (buffers policy.new sessions.new orders.new) result }
{
    let outcome = request(bytes, policy, sessions, orders);
    replies::number(replies::reply(outcome)) + 256 * replies::place(outcome)
}

// `settle` for C and Rust: the reply's number, since there is no place.
#[unsafe(no_mangle)]
pub extern "C" fn mishantral_settle(
    policy: &mut [u64],
    sessions: &mut [u64],
    orders: &mut [u64],
) -> u64
    ensures { SettledAs (buffers policy.old sessions.old orders.old) (buffers policy.new sessions.new orders.new) result }
{
    let r = settle(policy, sessions, orders);
    replies::number(r)
}

// The length in words of the scratch buffer for reading OPL/XML (crate opl).
const READER_WORDS: u64 = 921784;

// The length of a buffer in words: 0 policy, 1 sessions, 2 orders, 3 a question's answer, 4 the scratch buffer for reading OPL/XML; 0 for any other number.
#[unsafe(no_mangle)]
pub extern "C" fn mishantral_words(group: u64) -> u64
    ensures { result ≡ words_of group }
{
    match group {
        0 => POLICY_WORDS as u64,
        1 => SESSIONS_WORDS as u64,
        2 => ORDERS_WORDS as u64,
        3 => ANSWER_WORDS as u64,
        4 => READER_WORDS,
        _ => 0,
    }
}
