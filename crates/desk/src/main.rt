// The desk program (docs/RULES.md): loads the file policy.rec, then answers the request records of standard input, one line for each, as soon as it is
// complete. The crate engine makes every decision.
#![tactic(auto)]

ghost use Rattle.std.specs.Prelude.{◌+◌, ◌%◌, ◌<◌, ◌≤◌, ◌≡◌, length, IfOk};
ghost use Rattle.engine.specs.Buffers.{buffers};
ghost use Rattle.engine.specs.Settling.{Settling};

use itoa::Buffer;
use order_links::ORDERS_WORDS;
use policy::POLICY_WORDS;
use replies::{Outcome, Refusal};
use sessions::SESSIONS_WORDS;
use std::fs::File;
use std::io;
use std::io::Read;
use std::rt::Files;

// One read into the buffer from `at` on: the number of bytes, 0 at the end of the input, or a failure.
fn read_some(input: &mut impl Read, buffer: &mut [u8], at: usize) -> io::Result<usize>
    requires { at ≤ length buffer.old }
    ensures { IfOk result (λ n. at + n ≤ length buffer.new) }
{
    input.read(&mut buffer[at..])
}

// Reads until the buffer is full or the input ends.
fn read_all(input: &mut impl Read, buffer: &mut [u8]) -> io::Result<usize>
    ensures { IfOk result (λ n. n ≤ length buffer.new) }
{
    let mut at = 0;
    while at < buffer.len() {
        let n = read_some(input, buffer, at)?;
        if n == 0 {
            break;
        }
        at += n;
    }
    Ok(at)
}

// Reads the policy file. A folder of that name opens, but fails when it is read.
fn read_policy(rt: &impl Files, buffer: &mut [u8]) -> io::Result<usize>
    ensures { IfOk result (λ n. n ≤ length buffer.new) }
{
    let mut file = File::open(rt, "policy.rec")?;
    read_all(&mut file, buffer)
}

// The three buffers. They are passed by value, because a proof about a value is much cheaper than a proof about a borrowed buffer.
#[derive(Drop)]
struct State {
    policy: [u64; POLICY_WORDS],
    sessions: [u64; SESSIONS_WORDS],
    orders: [u64; ORDERS_WORDS],
}

// The answer of the load, and the state after it.
#[derive(Drop)]
struct Begun {
    loaded: Outcome,
    state: State,
}

// Loads a policy into a new state. Its links are sound afterwards, so every request can be a settled one.
fn load_bytes(bytes: &[u8]) -> Begun
    ensures { Settling (buffers result.state.policy result.state.sessions result.state.orders) }
{
    let mut policy = [0u64; POLICY_WORDS];
    let mut sessions = [0u64; SESSIONS_WORDS];
    let mut orders = [0u64; ORDERS_WORDS];
    let loaded = engine::load(bytes, &mut policy, &mut sessions, &mut orders);
    Begun {
        loaded,
        state: State {
            policy,
            sessions,
            orders,
        },
    }
}

// Writes the digits of a number, at most 20, and then one more byte; returns the index after them.
fn put_number(out: &mut [u8; 16384], at: usize, number: u64, then: u8) -> usize
    requires { at + 21 ≤ 16384 }
    ensures { result ≤ at + 21 }
{
    let mut digits = Buffer::new();
    let text = digits.format(number).as_bytes();
    let end = at + text.len();
    out[at..end].copy_from_slice(text);
    out[end] = then;
    end + 1
}

// Writes a line of two numbers, at most 42 bytes.
fn put_line(out: &mut [u8; 16384], at: usize, first: u64, second: u64) -> usize
    requires { at + 42 ≤ 16384 }
    ensures { result ≤ at + 42 }
{
    let middle = put_number(out, at, first, 32);
    put_number(out, middle, second, 10)
}

// Writes the line of a request, at most 63 bytes: its number, the reply, and the place of the rule that refuses it or 0.
fn put_answer(out: &mut [u8; 16384], at: usize, request: u64, reply: u64, place: u64) -> usize
    requires { at + 63 ≤ 16384 }
    ensures { result ≤ at + 63 }
{
    let middle = put_number(out, at, request, 32);
    put_line(out, middle, reply, place)
}

// How many of these bytes belong to whole records. The others are the beginning of the next record.
fn whole_records(bytes: usize) -> usize
    ensures { (result % 16 ≡ 0) × ((result ≤ bytes) × (bytes < result + 16)) }
{
    bytes - bytes % 16
}

// Performs the records of a block as requests, writes their lines to `out`, and returns the number of bytes written. `first` is the number of the first
// request.
fn answer(
    block: &[u8],
    first: u64,
    policy: &mut [u64],
    sessions: &mut [u64],
    orders: &mut [u64],
    out: &mut [u8; 16384],
) -> usize
    requires { (length block.now ≤ 4096) × ((first < 1152921504606846976) × Settling (buffers policy.old sessions.old orders.old)) }
    ensures { (result ≤ 16384) × Settling (buffers policy.new sessions.new orders.new) }
{
    let mut to = 0;
    for i in 0..block.len().div_ceil(16) {
        let at = 16 * i;
        let end = block.len().min(at + 16);
        let outcome = engine::settled_request(&block[at..end], policy, sessions, orders);
        to = put_answer(
            out,
            to,
            first + i as u64,
            replies::number(replies::reply(outcome)),
            replies::place(outcome),
        );
    }
    to
}

// Prints the first n bytes of a text; false if that failed.
fn write_front(out: &impl Print, text: &[u8], n: usize) -> bool {
    n <= text.len() && out.write_all(&text[0..n]).is_ok()
}

// Prints the first n bytes of the lines.
fn write_lines(out: &impl Print, lines: &[u8; 16384], n: usize) -> bool {
    write_front(out, lines, n)
}

// Whether the lines were printed, and the state after the requests.
#[derive(Drop)]
struct Served {
    written: bool,
    state: State,
}

// Answers the records in the first n bytes of the buffer.
fn serve_front(out: &impl Print, buffer: &[u8], n: usize, first: u64, state: State) -> Served
    requires { (n ≤ length buffer.now) × ((length buffer.now ≤ 4096) × ((first < 1152921504606846976) × Settling (buffers state.policy state.sessions state.orders))) }
    ensures { Settling (buffers result.state.policy result.state.sessions result.state.orders) }
{
    let mut policy = state.policy;
    let mut sessions = state.sessions;
    let mut orders = state.orders;
    let mut lines = [0u8; 16384];
    let length = answer(
        &buffer[0..n],
        first,
        &mut policy,
        &mut sessions,
        &mut orders,
        &mut lines,
    );
    Served {
        written: write_lines(out, &lines, length),
        state: State {
            policy,
            sessions,
            orders,
        },
    }
}

// How many of the bytes are answered now: the whole records, and at the end of the input (`came` is 0) also an incomplete one.
fn answered(bytes: usize, came: usize) -> usize
    ensures { result ≤ bytes }
{
    if came == 0 {
        bytes
    } else {
        whole_records(bytes)
    }
}

// Moves the bytes of an incomplete record to the front of the buffer.
fn keep_rest(buffer: &mut [u8; 4096], from: usize, to: usize)
    requires from_le_to { from ≤ to }
    requires to_bound { to ≤ 4096 }
{
    buffer.copy_within(from..to, 0);
}

// How many bytes of the input have been read, and the state after them.
#[derive(Drop)]
struct Turn {
    seen: u64,
    state: State,
}

// Reads what is there, after the bytes of an incomplete record, and answers what can be answered now. `seen` stays the same if there is nothing more to do: at
// the end of the input, or if a read or a write failed.
fn serve_some(
    input: &mut impl Read,
    out: &impl Print,
    buffer: &mut [u8; 4096],
    seen: u64,
    state: State,
) -> Turn
    requires { (seen < 1152921504606846976) × Settling (buffers state.policy state.sessions state.orders) }
    ensures { (result.seen ≤ seen + 4096) × Settling (buffers result.state.policy result.state.sessions result.state.orders) }
{
    let kept = (seen % 16) as usize;
    let Ok(n) = read_some(input, buffer, kept) else {
        return Turn { seen, state };
    };
    let bytes = kept + n;
    let now = answered(bytes, n);
    let served = serve_front(out, buffer, now, seen / 16 + 1, state);
    let after = served.state;
    if !served.written {
        return Turn { seen, state: after };
    }
    keep_rest(buffer, now, bytes);
    Turn {
        seen: seen + n as u64,
        state: after,
    }
}

// Answers requests until the input ends. The bound of 2^60 bytes makes the end of the loop easy to prove; no input is that long.
fn serve(input: &mut impl Read, out: &impl Print, begun: State)
    requires { Settling (buffers begun.policy begun.sessions begun.orders) }
{
    let mut buffer = [0u8; 4096];
    let mut state = begun;
    let mut seen = 0;
    while seen < 1152921504606846976 {
        let turn = serve_some(input, out, &mut buffer, seen, state);
        if turn.seen <= seen {
            return;
        }
        seen = turn.seen;
        state = turn.state;
    }
}

// Prints the line of the load.
fn write_load(out: &impl Print, reply: u64, place: u64) -> bool {
    let mut lines = [0u8; 16384];
    let length = put_line(&mut lines, 0, reply, place);
    out.write_all(b"load ").is_ok() && write_lines(out, &lines, length)
}

// The answer if the policy file is missing, too large or cannot be read.
fn refuse(out: &impl Print) {
    write_load(out, u64::from(Refusal::Room), 0);
}

// Loads the policy and answers the requests.
fn run(input: &mut impl Read, out: &impl Print, policy_file: &[u8]) {
    let begun = load_bytes(policy_file);
    let loaded = begun.loaded;
    let state = begun.state;
    let number = replies::number(replies::reply(loaded));
    if write_load(out, number, replies::place(loaded)) && loaded.is_ok() {
        serve(input, out, state);
    }
}

// The buffer is one byte longer than a policy file may be, so that a larger file is noticed.
fn main(rt: HostRuntime) {
    let mut buffer = [0u8; 65537];
    let Ok(n) = read_policy(&rt, &mut buffer) else {
        refuse(&rt);
        return;
    };
    if n <= 65536 {
        run(&mut rt.stdin(), &rt, &buffer[0..n]);
    } else {
        refuse(&rt);
    }
}
