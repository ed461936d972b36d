// Writes the policy tables as records to an output (02, Ask 8): kind after kind, and row after row within a kind.
#![tactic(auto)]

ghost use Rattle.std.specs.Prelude.{◌≡◌, [], ◌∷◌, ◌+◌, ◌*◌, ◌≤◌, ◌<◌};
ghost use Rattle.paper_lower.specs.Lists.{many};
ghost use Rattle.paper_lower.specs.Written.{when, of_there, row, records_written};
ghost use Rattle.policy.specs.Kinds.{set_index, pair_index};
ghost use Rattle.policy.specs.Layout.{limit_at, block_at, pair_at, walled_at};
ghost use Rattle.policy.specs.Reading.{policy_of};
ghost use Rattle.policy_writing.specs.Lines.{spread, across, limit_row, block_row, row_of_pair, wall_row, height_in, row_in, kind_in, side_in};
ghost use Rattle.policy_writing.specs.Laying.{Laid, Whole, far};
ghost use Rattle.policy_writing.specs.Answers.{fit, Wrote, Exported, written_number, written_records};

use policy::{POLICY_WORDS, PairKind, PolicyBuffer, SetKind};
use replies::Refusal;
use sessions::SESSIONS_WORDS;
use sets::Set;

// ---- One record.

// Writes a record at index `place`, if `there` holds and the output has room, and returns the next index. Without room the record is only counted.
fn put(
    output: &mut [u8],
    place: usize,
    there: bool,
    kind: u64,
    n: u64,
    a: u64,
    b: u64,
    c: u64,
    m: u64,
) -> usize
    requires { (place < far) × Whole kind n a b c }
    ensures { Laid (when there (row kind n a b c m)) 1 output.old output.new place result }
{
    if !there {
        return place;
    }
    let next = place + 1;
    if output.len() < 16 * next {
        return next;
    }
    record_output::put(output, place, kind, n, a, b, c, m);
    next
}

// ---- One row of a kind. Each function returns the index after its records.

// Permission a, if it is declared.
fn permission(output: &mut [u8], place: usize, p: &PolicyBuffer, a: usize) -> usize
    requires { (place < far) × (a < 256) }
    ensures { Laid (of_there (λ x. row 3 0 a x.operation x.object 0) ((policy_of p.now).permissions.declared a)) 1 output.old output.new place result }
{
    let there = policy::permission_declared(p, a);
    let b = policy::permission_operation(p, a);
    let c = policy::permission_object(p, a);
    put(output, place, there, 3, 0, a as u64, b, c, 0)
}

// Task a, if it is declared.
fn task(output: &mut [u8], place: usize, p: &PolicyBuffer, a: usize) -> usize
    requires { (place < far) × (a < 64) }
    ensures { Laid (of_there (λ j. row 6 0 a j 0 0) ((policy_of p.now).tasks.template a)) 1 output.old output.new place result }
{
    let there = policy::task_declared(p, a);
    let b = policy::template(p, a);
    put(output, place, there, 6, 0, a as u64, b, 0, 0)
}

// The count limit of task a, if it has one.
fn most(output: &mut [u8], place: usize, p: &PolicyBuffer, a: usize) -> usize
    requires { (place < far) × (a < 64) }
    ensures { Laid (of_there (λ n. row 14 n a 0 0 0) ((policy_of p.now).tasks.most a)) 1 output.old output.new place result }
{
    let there = policy::task_limited(p, a);
    let n = policy::most(p, a);
    put(output, place, there, 14, n, a as u64, 0, 0, 0)
}

// Set k of a kind.
#[tactic(auto, unfolding(paper_lower::specs::Written::when))]
fn limit(output: &mut [u8], place: usize, p: &PolicyBuffer, which: SetKind, k: usize) -> usize
    requires { (place < far) × (k < 32) }
    ensures { Laid (limit_row (9 + set_index which) (limit_at (set_index which) p.now k) ∷ []) 1 output.old output.new place result }
{
    let n = policy::limit_n(p, which, k) % 256;
    let m = policy::limit_members(p, which, k);
    let kind = 9 + which.index() as u64;
    put(output, place, true, kind, n, 0, 0, 0, m.bits)
}

// Block k.
fn block(output: &mut [u8], place: usize, p: &PolicyBuffer, k: usize) -> usize
    requires { (place < far) × (k < 64) }
    ensures { Laid (block_row (block_at p.now k) ∷ []) 1 output.old output.new place result }
{
    let a = policy::block_partitioning(p, k);
    let m = policy::block_tasks(p, k);
    put(output, place, true, 12, 0, a, 0, 0, m.bits)
}

// Pair k of a kind.
#[tactic(auto, unfolding(paper_lower::specs::Written::when))]
fn pair(output: &mut [u8], place: usize, p: &PolicyBuffer, which: PairKind, k: usize) -> usize
    requires { (place < far) × (k < 64) }
    ensures { Laid (row_of_pair (15 + pair_index which) (pair_at (pair_index which) p.now k) ∷ []) 1 output.old output.new place result }
{
    let a = policy::pair_a(p, which, k);
    let b = policy::pair_b(p, which, k);
    let kind = 15 + which.index() as u64;
    put(output, place, true, kind, 0, a, b, 0, 0)
}

// Row k of the walls. The field c has two bytes; a row without an object, which no load makes, is written with object 0.
fn walled(output: &mut [u8], place: usize, p: &PolicyBuffer, k: usize) -> usize
    requires { (place < far) × (k < 256) }
    ensures { Laid (wall_row (walled_at p.now k) ∷ []) 1 output.old output.new place result }
{
    let a = policy::walled_wall(p, k);
    let b = policy::walled_block(p, k);
    let c = policy::walled_object(p, k) % 65536;
    put(output, place, true, 18, 0, a, b, c, 0)
}

// A record (a, b) for each member b of the set m.
fn members(output: &mut [u8], place: usize, kind: u64, a: u64, m: Set) -> usize
    requires { (place + 64 < far) × ((kind < 256) × (a < 65536)) }
    ensures { Laid (spread kind a m.bits) 64 output.old output.new place result }
{
    if m.is_empty() {
        return place;
    }
    let mut at = place;
    for b in 0..64 {
        at = put(output, at, m.has(b), kind, 0, a, b, 0, 0);
    }
    at
}

// The roles that have permission b (kind 5) or the tasks that carry it (other kinds).
fn side(p: &PolicyBuffer, kind: u64, b: usize) -> Set
    requires { b < 256 }
    ensures { result.bits ≡ side_in p.now kind b }
{
    if kind == 5 {
        return policy::holders(p, b);
    }
    policy::carriers(p, b)
}

// A record (a, b) for each permission b whose set has a.
fn permissions(output: &mut [u8], place: usize, p: &PolicyBuffer, kind: u64, a: u64) -> usize
    requires { (place + 256 < far) × ((kind < 256) × (a < 64)) }
    ensures { Laid (across kind a (side_in p.now kind)) 256 output.old output.new place result }
{
    let mut at = place;
    for b in 0..256 {
        let there = side(p, kind, b).has(a);
        at = put(output, at, there, kind, 0, a, b as u64, 0, 0);
    }
    at
}

// ---- One kind.

// The number of rows of a kind.
#[tactic(auto, unfolding(crate::proofs::LineLaws::lines_open))]
fn height(p: &PolicyBuffer, kind: u64) -> usize
    ensures { (result ≡ height_in p.now kind) × (result ≤ 1024) }
{
    match kind {
        1 => 1024,
        2 => 64,
        3 => 256,
        4 => 1024,
        5 => 64,
        6 => 64,
        7 => 64,
        8 => 64,
        9 => policy::limit_count(p, SetKind::Static),
        10 => policy::limit_count(p, SetKind::Dynamic),
        11 => policy::limit_count(p, SetKind::Task),
        12 => policy::block_count(p),
        13 => 16,
        14 => 64,
        15 => policy::pair_count(p, PairKind::Binding),
        16 => policy::pair_count(p, PairKind::Prerequisite),
        17 => 64,
        18 => policy::wall_count(p),
        _ => 0,
    }
}

// Row a of a kind.
#[tactic(auto, using(crate::proofs::Laws::as_row), unfolding(crate::proofs::LineLaws::lines_open))]
fn line(output: &mut [u8], place: usize, p: &PolicyBuffer, kind: u64, a: usize) -> usize
    requires { (place + 256 < far) × (a < height_in p.now kind) }
    ensures { Laid (row_in p.now kind a) 256 output.old output.new place result }
{
    let i = a as u64;
    match kind {
        1 => put(output, place, policy::user_declared(p, a), 1, 0, i, 0, 0, 0),
        2 => put(
            output,
            place,
            policy::declared_roles(p).has(i),
            2,
            0,
            i,
            0,
            0,
            0,
        ),
        3 => permission(output, place, p, a),
        4 => members(output, place, 4, i, policy::assigned(p, a)),
        5 => permissions(output, place, p, 5, i),
        6 => task(output, place, p, a),
        7 => members(output, place, 7, i, policy::open_to(p, a)),
        8 => permissions(output, place, p, 8, i),
        9 => limit(output, place, p, SetKind::Static, a),
        10 => limit(output, place, p, SetKind::Dynamic, a),
        11 => limit(output, place, p, SetKind::Task, a),
        12 => block(output, place, p, a),
        13 => put(output, place, policy::banned(p, a), 13, 0, i, 0, 0, 0),
        14 => most(output, place, p, a),
        15 => pair(output, place, p, PairKind::Binding, a),
        16 => pair(output, place, p, PairKind::Prerequisite, a),
        17 => members(output, place, 17, i, policy::juniors(p, a)),
        18 => walled(output, place, p, a),
        _ => place,
    }
}

// All rows of a kind.
fn lines(output: &mut [u8], place: usize, p: &PolicyBuffer, kind: u64) -> usize
    requires { place + 524288 < far }
    ensures { Laid (kind_in p.now kind) 262144 output.old output.new place result }
{
    let rows = height(p, kind);
    let mut at = place;
    for a in 0..rows {
        at = line(output, at, p, kind, a);
    }
    at
}

// ---- The whole policy.

// Writes all kinds from the start of the output and returns the number of records.
fn all(output: &mut [u8], p: &PolicyBuffer) -> usize
    ensures { Laid (records_written (policy_of p.now)) far output.old output.new 0 result }
{
    let mut at = 0;
    for kind in 0..19 {
        at = lines(output, at, p, kind);
    }
    at
}

// The number of records. It writes them to an output that has no room for any, which only counts them.
fn count(p: &PolicyBuffer) -> usize
    ensures { (result ≡ many (records_written (policy_of p.now))) × (result ≤ far) }
{
    let mut none = [0; 1];
    all(&mut none, p)
}

// Writes the policy, unless the buffer has the wrong length or the output is too short, and returns the number of records.
pub fn write(output: &mut [u8], policy: &[u64]) -> Result<usize, Refusal>
    ensures { Wrote policy.now output.old output.new result }
{
    let Some(p) = policy.as_array::<POLICY_WORDS>() else {
        return Err(Refusal::Room);
    };
    let records = count(p);
    if output.len() < 16 * records {
        return Err(Refusal::Room);
    }
    all(output, p);
    Ok(records)
}

// The number of records that were written, or the refusal, as one number: the reply + 256 times the number of records.
pub fn packed(written: Result<usize, Refusal>) -> u64
    requires { written_records written ≤ far }
    ensures { result ≡ written_number written + 256 * written_records written }
{
    match written {
        Ok(records) => 256 * records as u64,
        Err(refusal) => u64::from(refusal),
    }
}

// `write` for C and Rust, on the buffers of the lower part. Returns the reply plus 256 times the number of records.
#[unsafe(no_mangle)]
pub extern "C" fn mishantral_lower_write(output: &mut [u8], policy: &[u64], sessions: &[u64]) -> u64
    ensures { Exported (fit policy.now sessions.now) (policy_of policy.now) output.old output.new result }
{
    if sessions.len() != SESSIONS_WORDS {
        return u64::from(Refusal::Room);
    }
    packed(write(output, policy))
}
