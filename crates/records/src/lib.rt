// Records, and the two checks that every record meets first: SHAPE and RANGE, which depend on its bytes only. The definitions are in paper_lower, Forms.
#![tactic(auto)]

ghost use Rattle.std.specs.Prelude.{◌≡◌, ◌+◌, ◌<◌, length};
ghost use Rattle.paper_lower.specs.Checks.{first};
ghost use Rattle.paper_lower.specs.Records.{number};
ghost use Rattle.paper_lower.specs.Forms.{form_checks};
ghost use Rattle.replies.specs.Replies.{number_of};
ghost use Rattle.records.specs.Reading.{Decoded};
ghost use Rattle.records.specs.Table.{bit_of, table_at, misshapes, outranges};
ghost use Rattle.records.specs.Calls.{forms_of};
ghost use Rattle.records.specs.Check.{is_check};

use replies::{Refusal, Reply};

// A record of sixteen bytes, decoded (docs/RULES.md, "A record").
#[derive(Clone, Copy)]
pub struct Record {
    pub kind: u64,
    pub n: u64,
    pub a: u64,
    pub b: u64,
    pub c: u64,
    pub m: u64,
}

// Multipliers: the field n of a record is in its first word from bit 8 on, a from 16, b from 32, c from 48.
const N: u64 = 256;

const A: u64 = 65536;

const B: u64 = 4294967296;

const C: u64 = 281474976710656;

// The call that a record is given to: the load, the request of the lower part, or the request of the whole engine.
#[derive(Clone, Copy)]
pub enum Call {
    Load,
    Lower,
    Request,
}

// The little-endian number in the eight bytes from index `at` on.
fn word(s: &[u8], at: usize) -> u64
    requires { at + 7 < length s.now }
    ensures { result ≡ number at 8 s.now }
{
    u64::from_le_bytes([
        s[at],
        s[at + 1],
        s[at + 2],
        s[at + 3],
        s[at + 4],
        s[at + 5],
        s[at + 6],
        s[at + 7],
    ])
}

// Decodes a record. It reads two words of eight bytes, each of which the compiler turns into one load.
pub fn decode(s: &[u8]) -> Record
    requires { length s.now ≡ 16 }
    ensures { Decoded s.now result }
{
    let first = word(s, 0);
    let m = word(s, 8);
    Record {
        kind: first % 256,
        n: first / N % 256,
        a: first / A % 65536,
        b: first / B % 65536,
        c: first / C,
        m,
    }
}

// The calls that take a kind, one bit per call: 1 the load, 2 the lower part's
// request, 4 the whole engine's. The whole engine takes the lower part's kinds too.
const LOAD: u64 = 1;

const LOWER: u64 = 6;

const UPPER: u64 = 4;

// The bits in the first word of fields that must be zero.
const NO_N: u64 = 0xff00;

const NO_A: u64 = 0xffff0000;

const NO_B: u64 = 0xffff00000000;

const NO_C: u64 = 0xffff000000000000;

// The limits of a, b and c.
const USER: u64 = 1023;

const ROLE: u64 = 63;

const PERMISSION: u64 = 255;

const TASK: u64 = 63;

const TEMPLATE: u64 = 15;

const PARTITIONING: u64 = 15;

const WALL: u64 = 15;

const BLOCK: u64 = 15;

const SUBJECT: u64 = 127;

const ORDER: u64 = 63;

const ANY: u64 = 65535;

// The limits of m: it must be zero, is a pair of operation and object, or is any set.
const NO_M: u64 = 0;

const PAIR: u64 = 0xffffffff;

const ANY_M: u64 = 0xffffffffffffffff;

// The form of a kind: the calls that take it, the bits of the first word that must be zero, and the limits of m, a, b and c.
#[derive(Clone, Copy)]
struct Form(u64, u64, u64, u64, u64, u64);

// The form of each kind. Each kind has its own arm: for kinds in a common arm the compiler would test their range before all others.
fn form_of(kind: u64) -> Form
    requires { kind < 256 }
    ensures { result ≡ table_at kind }
{
    match kind {
        1 => Form(LOAD, NO_N | NO_B | NO_C, NO_M, USER, 0, 0),
        2 => Form(LOAD, NO_N | NO_B | NO_C, NO_M, ROLE, 0, 0),
        3 => Form(LOAD, NO_N, NO_M, PERMISSION, ANY, ANY),
        4 => Form(LOAD, NO_N | NO_C, NO_M, USER, ROLE, 0),
        5 => Form(LOAD, NO_N | NO_C, NO_M, ROLE, PERMISSION, 0),
        6 => Form(LOAD, NO_N | NO_C, NO_M, TASK, TEMPLATE, 0),
        7 => Form(LOAD, NO_N | NO_C, NO_M, TASK, ROLE, 0),
        8 => Form(LOAD, NO_N | NO_C, NO_M, TASK, PERMISSION, 0),
        9 => Form(LOAD, NO_A | NO_B | NO_C, ANY_M, 0, 0, 0),
        10 => Form(LOAD, NO_A | NO_B | NO_C, ANY_M, 0, 0, 0),
        11 => Form(LOAD, NO_A | NO_B | NO_C, ANY_M, 0, 0, 0),
        12 => Form(LOAD, NO_N | NO_B | NO_C, ANY_M, PARTITIONING, 0, 0),
        13 => Form(LOAD, NO_N | NO_B | NO_C, NO_M, TEMPLATE, 0, 0),
        14 => Form(LOAD, NO_B | NO_C, NO_M, TASK, 0, 0),
        15 => Form(LOAD, NO_N | NO_C, NO_M, TASK, TASK, 0),
        16 => Form(LOAD, NO_N | NO_C, NO_M, TASK, TASK, 0),
        17 => Form(LOAD, NO_N | NO_C, NO_M, ROLE, ROLE, 0),
        18 => Form(LOAD, NO_N, NO_M, WALL, BLOCK, ANY),
        32 => Form(LOWER, NO_N | NO_B | NO_C, ANY_M, USER, 0, 0),
        33 => Form(LOWER, NO_N | NO_B | NO_C, NO_M, USER, 0, 0),
        34 => Form(LOWER, NO_N | NO_C, NO_M, USER, ROLE, 0),
        35 => Form(LOWER, NO_N | NO_C, NO_M, USER, ROLE, 0),
        36 => Form(LOWER, NO_N | NO_C, NO_M, ROLE, PERMISSION, 0),
        37 => Form(LOWER, NO_N | NO_C, NO_M, ROLE, PERMISSION, 0),
        40 => Form(LOWER, NO_N | NO_C, ANY_M, SUBJECT, USER, 0),
        41 => Form(LOWER, NO_N | NO_B | NO_C, NO_M, SUBJECT, 0, 0),
        42 => Form(LOWER, NO_N | NO_C, NO_M, SUBJECT, ROLE, 0),
        43 => Form(LOWER, NO_N | NO_C, NO_M, SUBJECT, ROLE, 0),
        48 => Form(UPPER, NO_N | NO_C, NO_M, ORDER, TEMPLATE, 0),
        49 => Form(UPPER, NO_N | NO_B | NO_C, NO_M, ORDER, 0, 0),
        50 => Form(UPPER, NO_N, NO_M, SUBJECT, ORDER, TASK),
        51 => Form(UPPER, NO_N, NO_M, SUBJECT, ORDER, TASK),
        52 => Form(UPPER, NO_N, NO_M, SUBJECT, ORDER, TASK),
        56 => Form(LOWER, NO_N, NO_M, SUBJECT, ANY, ANY),
        57 => Form(UPPER, NO_N, PAIR, SUBJECT, ORDER, TASK),
        58 => Form(UPPER, NO_N | NO_B | NO_C, NO_M, ORDER, 0, 0),
        59 => Form(LOWER, NO_N, NO_M, SUBJECT, ANY, ANY),
        60 => Form(UPPER, NO_N | NO_B | NO_C, NO_M, TEMPLATE, 0, 0),
        _ => Form(0, 0, 0, 0, 0, 0),
    }
}

// The bit of a call in a form.
fn bit(call: Call) -> u64
    ensures { result ≡ bit_of call }
{
    match call {
        Call::Load => 1,
        Call::Lower => 2,
        Call::Request => 4,
    }
}

// Whether sixteen bytes get SHAPE. The fields of the first word that must be zero are tested together. m is compared with a limit in every case, so that a
// row of the table is numbers only and the compiler can keep the whole as a lookup table.
fn misshapen(call: Call, f: Form, first: u64, m: u64) -> bool
    ensures { result ≡ misshapes (bit_of call) f first m }
{
    (f.0 & bit(call) == 0) | (first & f.1 != 0) | (f.2 < m)
}

// Whether a record that does not get SHAPE gets RANGE.
fn out_of_range(f: Form, r: Record) -> bool
    ensures { result ≡ outranges f r }
{
    (f.3 < r.a) | (f.4 < r.b) | (f.5 < r.c)
}

// Checks any bytes for SHAPE and RANGE. It returns only the reply, and the caller decodes the record again: a reply is returned in a register, a record would
// be returned through memory.
pub fn judge(call: Call, s: &[u8]) -> Reply
    ensures { number_of result ≡ first (form_checks (forms_of call) s.now) }
{
    if s.len() != 16 {
        return Err(Refusal::Shape);
    }
    let r = decode(s);
    let kind = r.kind;
    let m = r.m;
    let head = word(s, 0);
    let f = form_of(kind);
    if misshapen(call, f, head, m) {
        return Err(Refusal::Shape);
    }
    if out_of_range(f, r) {
        return Err(Refusal::Range);
    }
    Ok(())
}

// Whether the bytes are a check (kind 56) that passes SHAPE and RANGE. The four tests are combined without branches.
pub fn is_check(s: &[u8]) -> bool
    ensures { result ≡ is_check s.now }
{
    if s.len() != 16 {
        return false;
    }
    let r = decode(s);
    (r.kind == 56) & (r.n == 0) & (r.a < 128) & (r.m == 0)
}
