// What the programs that run cases share: reading a line of a script with its numbers and its record, the bytes that a line passes to a call, printing, and
// comparing words. It knows no rule of the engine. A line has a first letter that says what to do, then numbers, and then words for the reader.
#![tactic(auto)]

ghost use Rattle.std.specs.Prelude.{◌≢◌, ℕ, ◌+◌, ◌-◌, ◌%◌, ◌<◌, ◌≤◌, true, cond, ◌≡◌, length, get_or, take, IfOk};
ghost use Rattle.scripts.specs.Lines.{LineEnd, digit_more, space_more, number_of, bytes_of, a_record_of, Put, drawn, garbled, letter_of, Garbled};

use std::io;
use std::io::Read;

// The fields of a record.
#[derive(Clone, Copy)]
pub struct Fields {
    pub kind: u8,
    pub n: u8,
    pub a: u64,
    pub b: u64,
    pub c: u64,
    pub m: u64,
}

// The lowest byte of a number.
fn low(x: u64) -> u8
    ensures { result ≡ x % 256 }
{
    (x % 256) as u8
}

// The sixteen bytes of a record; of a, b and c only the low sixteen bits.
pub fn bytes(r: Fields) -> [u8; 16]
    ensures { result ≡ bytes_of r }
{
    let a = r.a.to_le_bytes();
    let b = r.b.to_le_bytes();
    let c = r.c.to_le_bytes();
    let m = r.m.to_le_bytes();
    [
        r.kind, r.n, a[0], a[1], b[0], b[1], c[0], c[1], m[0], m[1], m[2], m[3], m[4], m[5], m[6],
        m[7],
    ]
}

// Writes a record after the first `at` bytes, if there is room, and returns where the next record goes.
fn put(to: &mut [u8], at: usize, r: Fields) -> usize
    ensures { Put at r to.old to.new result }
{
    if at > 65520 {
        return at;
    }
    let end = at + 16;
    if end > to.len() {
        return at;
    }
    to[at..end].copy_from_slice(&bytes(r));
    end
}

// The end of the line that begins at `at`: its newline, or the end of the text.
pub fn line_end(text: &[u8], at: usize) -> usize
    requires { at ≤ length text.now }
    ensures { LineEnd text.now at result }
{
    for i in at..text.len() {
        if text[i] == b'\n' {
            return i;
        }
    }
    text.len()
}

// A number with one more digit, if the byte is a digit and the number stays below 2^64.
#[tactic(auto, unfolding(crate::specs::Lines::digit_more))]
fn digit(x: u64, b: u8) -> u64
    ensures { result ≡ digit_more x b }
{
    if b < b'0' {
        return x;
    }
    if b > b'9' {
        return x;
    }
    if x > 1844674407370955160 {
        return x;
    }
    x * 10 + (b - b'0') as u64
}

// The number after the k-th space of a line; 0 if there is none.
pub fn number(line: &[u8], k: u64) -> u64
    ensures { result ≡ number_of line.now k }
{
    let mut spaces = 0;
    let mut x = 0;
    for &b in line {
        spaces = spaces_with(spaces, b);
        x = if_word(spaces == k, x, b);
    }
    x
}

// The number of spaces after one more byte; it stops at about a thousand, so that it cannot overflow.
#[tactic(auto, unfolding(crate::specs::Lines::space_more))]
fn spaces_with(spaces: u64, b: u8) -> u64
    ensures { result ≡ space_more spaces b }
{
    if b != b' ' {
        return spaces;
    }
    if spaces > 1000 {
        return spaces;
    }
    spaces + 1
}

// A number with one more digit if `here`, and unchanged otherwise.
fn if_word(here: bool, x: u64, b: u8) -> u64
    ensures { result ≡ cond here (digit_more x b) x }
{
    if here { digit(x, b) } else { x }
}

// The record whose six numbers come after the k-th space and the next five.
fn record_of(line: &[u8], k: u64) -> Fields
    requires { k < 100 }
    ensures { result ≡ a_record_of line.now k }
{
    let kind = low(number(line, k));
    let n = low(number(line, k + 1));
    let a = number(line, k + 2);
    let b = number(line, k + 3);
    let c = number(line, k + 4);
    let m = number(line, k + 5);
    Fields {
        kind,
        n,
        a,
        b,
        c,
        m,
    }
}

// Whether two buffers have the same words.
pub fn same(x: &[u64], y: &[u64]) -> bool
    ensures { (result ≡ true → x.now ≡ y.now) × (x.now ≡ y.now → result ≡ true) }
{
    x == y
}

// Whether every word is zero.
fn zeros(x: &[u64]) -> bool
    ensures { (result ≡ true → ((i : ℕ) → get_or x.now i 0 ≡ 0)) × (((i : ℕ) → get_or x.now i 0 ≡ 0) → result ≡ true) }
{
    for word in x {
        if *word != 0 {
            return false;
        }
    }
    true
}

// Fills the buffer with meaningless numbers, drawn from a seed.
fn garble(words: &mut [u64], seed: u64)
    ensures { (i : ℕ) → i < length words.old → get_or words.new i 0 ≡ garbled (drawn seed (i + 1)) }
{
    let mut x = seed;
    for word in words.iter_mut() {
        x = (x % 2147483648 * 1103515245 + 12345) % 2147483648;
        *word = x % 2147483648 * 8589934591;
    }
}

// The same, but a seed of 0 leaves the buffer as it is.
pub fn garble_by(words: &mut [u64], seed: u64)
    ensures { Garbled seed words.old words.new }
{
    if seed != 0 {
        garble(words, seed);
    }
}

// Whether the first n words are all zero.
pub fn zeros_in(x: &[u64], n: usize) -> bool
    ensures { result ≡ true → n ≤ length x.now }
{
    if n > x.len() {
        return false;
    }
    zeros(&x[0..n])
}

// n, or the number of words if that is smaller.
pub fn so_many(words: &[u64], n: u64) -> usize
    ensures { result ≤ length words.now }
{
    words.len().min(n as usize)
}

// The first n bytes, or all of them if there are fewer.
pub fn front(bytes: &[u8], n: usize) -> &[u8]
    ensures { result.now ≡ take n bytes.now }
{
    &bytes[..bytes.len().min(n)]
}

// The bytes that are passed to a call: the first `len` of these.
#[derive(Clone, Copy)]
pub struct Handed {
    pub bytes: [u8; 8192],
    pub len: usize,
}

// No bytes.
pub fn nothing() -> Handed
    ensures { result.len ≡ 0 }
{
    Handed {
        bytes: [0u8; 8192],
        len: 0,
    }
}

// The same bytes with one more record after them, if there is room.
fn with_record(h: Handed, r: Fields) -> Handed
    ensures { Put h.len r h.bytes result.bytes result.len }
{
    let mut bytes = h.bytes;
    let len = put(&mut bytes, h.len, r);
    Handed { bytes, len }
}

// The same bytes with another length.
fn of_length(h: Handed, len: usize) -> Handed
    ensures { (result.bytes ≡ h.bytes) × (result.len ≡ len) }
{
    let bytes = h.bytes;
    Handed { bytes, len }
}

// The bytes of one request.
fn request_of(r: Fields) -> Handed {
    with_record(nothing(), r)
}

// The first byte of a line. For an empty line it is a newline, with which no line begins.
#[tactic(auto, unfolding(crate::specs::Lines::letter_of))]
pub fn letter(line: &[u8]) -> u8
    ensures { result ≡ letter_of line.now }
{
    if line.len() == 0 { b'\n' } else { line[0] }
}

// The policy that is being collected, after this line: with one more record, empty, or unchanged.
pub fn policy_behind(line: &[u8], policy: Handed) -> Handed
    ensures one_more { letter_of line.now ≡ 43 → Put policy.len (a_record_of line.now 1) policy.bytes result.bytes result.len }
    ensures emptied { letter_of line.now ≡ 110 → result.len ≡ 0 }
    ensures unchanged { letter_of line.now ≢ 43 → letter_of line.now ≢ 110 → result ≡ policy }
{
    match letter(line) {
        b'+' => with_record(policy, record_of(line, 1)),
        b'n' => nothing(),
        _ => policy,
    }
}

// The bytes that a line which loads or asks passes to its call, given the policy that is being collected. In a line `in`, the lengths of `buffers` buffers come
// before the record.
pub fn handed_by(line: &[u8], policy: &Handed, buffers: u64) -> Handed
    requires { buffers < 10 }
    ensures one_more { letter_of line.now ≡ 119 → Put policy.now.len (a_record_of line.now 1) policy.now.bytes result.bytes result.len }
    ensures cut { letter_of line.now ≡ 108 → (result.bytes ≡ policy.now.bytes) × (result.len ≡ policy.now.len - number_of line.now 1) }
    ensures whole { letter_of line.now ≡ 114 → result ≡ policy.now }
    ensures of_length { letter_of line.now ≡ 99 → result.len ≡ number_of line.now 1 }
{
    match letter(line) {
        b'w' => with_record(*policy, record_of(line, 1)),
        b'l' => of_length(*policy, policy.len.saturating_sub(number(line, 1) as usize)),
        b'r' => *policy,
        b'i' => request_of(record_of(line, buffers + 1)),
        b'c' => of_length(request_of(record_of(line, 2)), number(line, 1) as usize),
        _ => request_of(record_of(line, 1)),
    }
}

// Reads a script from its start on, until the text is full or the input ends, and returns the number of its bytes.
pub fn read_script(input: &mut impl Read, text: &mut [u8]) -> io::Result<usize>
    ensures { IfOk result (λ n. n ≤ length text.new) }
{
    let mut at = 0;
    while at < text.len() {
        let n = input.read(&mut text[at..])?;
        if n == 0 {
            break;
        }
        at += n;
    }
    Ok(at)
}

// Prints a text. No contract can say what a stream takes, so this function and the next ones promise nothing but their return.
pub fn say(out: &impl Print, text: &[u8]) -> io::Result<()> {
    out.write_all(text)
}

// Prints a text if the condition holds.
pub fn say_if(out: &impl Print, yes: bool, text: &[u8]) -> io::Result<()> {
    if yes {
        say(out, text)?;
    }
    Ok(())
}

// Prints a line.
pub fn say_line(out: &impl Print, line: &[u8]) -> io::Result<()> {
    say(out, line)?;
    say(out, b"\n")
}

// Prints a line and a reply after it.
pub fn say_reply(out: &impl Print, line: &[u8], reply: u64) -> io::Result<()> {
    say(out, line)?;
    print!(out; ": {reply}")
}

// Prints a place after a reply.
pub fn say_place(out: &impl Print, place: u64) -> io::Result<()> {
    print!(out; " at {place}")
}

// A machine for scripts: its buffers, and what a line of a script does to them.
pub trait Machine {
    // Runs a line of the script, prints what comes of it, and returns the machine after it. `policy` are the records that are being collected.
    fn run<P: Print>(self, out: &P, line: &[u8], policy: &Handed) -> io::Result<Self>;
}

// Runs all lines of a script on a machine.
pub fn run_lines<M: Machine + Drop, P: Print>(out: &P, text: &[u8], first: M) -> io::Result<()>
    requires { length text.now ≤ 65536 }
{
    let mut policy = nothing();
    let mut machine = first;
    let mut at = 0;
    while at < text.len() {
        let end = line_end(text, at);
        let line = &text[at..end];
        policy = policy_behind(line, policy);
        machine = machine.run(out, line, &policy)?;
        at = end + 1;
    }
    Ok(())
}
