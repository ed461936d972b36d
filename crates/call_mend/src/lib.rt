// Mends a damaged policy file, with the caller's engine state to work in (document 02, Ask 12). `step` does the work from one refused record to the next;
// `mishantral_mend` is a thin function over it that writes the report. `policy_mending` handles the records, the engine's crates handle the state.
#![tactic(auto)]

ghost use Rattle.std.specs.Prelude.{◌≡◌, ◌+◌, ◌/◌, ◌≤◌, length};
ghost use Rattle.replies.specs.Replies.{number_of};
ghost use Rattle.engine.specs.Buffers.{buffers};
ghost use Rattle.call_mend.specs.Promises.{MendDone, Turned, checked, numbered, dropped_or};

use order_links::ORDERS_WORDS;
use policy::POLICY_WORDS;
use policy_mending::Dropped;
use replies::{Refusal, Reply};
use sessions::SESSIONS_WORDS;

// Checks for the refusals of the call, before anything is written. `room` is the number of entries that the report can hold.
fn judge(
    input: &[u8],
    output: &[u8],
    room: usize,
    policy: &[u64],
    sessions: &[u64],
    orders: &[u64],
) -> Reply
    ensures { number_of result ≡ checked input.now output.now room (buffers policy.now sessions.now orders.now) }
{
    if !engine::fit(policy.len(), sessions.len(), orders.len()) {
        return Err(Refusal::Room);
    }
    if output.len() < input.len() {
        return Err(Refusal::Room);
    }
    if room < input.len() / 16 + 1 {
        return Err(Refusal::Room);
    }
    Ok(())
}

// If `d` ends the call (reply 0), puts the call's number in its place field: 256 times the number of records kept.
fn ended(d: Dropped) -> Dropped
    ensures { result ≡ numbered d }
{
    if d.reply == 0 {
        let n = 256 * (d.place % 36028797018963968);
        return Dropped { place: n, reply: 0 };
    }
    d
}

// A step, or the refusal of the call. While no record has been dropped yet, it empties the state first.
fn turn(
    input: &[u8],
    output: &mut [u8],
    room: usize,
    place: u64,
    dropped: usize,
    policy: &mut [u64],
    sessions: &mut [u64],
    orders: &mut [u64],
) -> Result<Dropped, Refusal>
    requires { (place ≤ length input.now / 16 + 1) × (dropped ≤ place) }
    ensures { Turned room place dropped input.now output.old (buffers policy.old sessions.old orders.old) output.new (buffers policy.new sessions.new orders.new) (dropped_or result) }
{
    judge(input, output, room, policy, sessions, orders)?;
    let p = policy.as_mut_array::<POLICY_WORDS>().ok_or(Refusal::Room)?;
    let s = sessions
        .as_mut_array::<SESSIONS_WORDS>()
        .ok_or(Refusal::Room)?;
    let o = orders.as_mut_array::<ORDERS_WORDS>().ok_or(Refusal::Room)?;
    if dropped == 0 {
        policy::clear(p);
        sessions::clear(s);
        order_entries::clear(o);
        return Ok(ended(policy_mending::next(input, place, dropped, output, p)));
    }
    Ok(ended(policy_mending::next(input, place, dropped, output, p)))
}

// Finds the next dropped record and returns its place and refusal; or, at the end, reply 0 with the call's number as the place. If the lengths are wrong, that
// number is ROOM.
pub fn step(
    input: &[u8],
    output: &mut [u8],
    room: usize,
    place: u64,
    dropped: usize,
    policy: &mut [u64],
    sessions: &mut [u64],
    orders: &mut [u64],
) -> Dropped
    requires { (place ≤ length input.now / 16 + 1) × (dropped ≤ place) }
    ensures { Turned room place dropped input.now output.old (buffers policy.old sessions.old orders.old) output.new (buffers policy.new sessions.new orders.new) result }
{
    match turn(
        input, output, room, place, dropped, policy, sessions, orders,
    ) {
        Ok(d) => d,
        Err(refusal) => Dropped {
            place: u64::from(refusal),
            reply: 0,
        },
    }
}

// Mends `input` into `output`, for C and Rust: the number is the reply + 256 times the number of records kept. Each answer of `step` that names a dropped
// record becomes an entry of the report.
#[unsafe(no_mangle)]
pub extern "C" fn mishantral_mend(
    input: &[u8],
    output: &mut [u8],
    report: &mut [Dropped],
    policy: &mut [u64],
    sessions: &mut [u64],
    orders: &mut [u64],
) -> u64
    ensures { MendDone input.now output.old report.old (buffers policy.old sessions.old orders.old) output.new report.new (buffers policy.new sessions.new orders.new) result }
{
    let room = report.len();
    let mut place = 0;
    let mut k = 0;
    loop {
        let d = step(input, output, room, place, k, policy, sessions, orders);
        place = d.place;
        if d.reply == 0 {
            return place;
        }
        report[k] = d;
        k += 1;
    }
}
