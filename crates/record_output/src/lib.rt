// Writes records to an output of bytes. The definition is `put_at` in paper_lower, Records.
#![tactic(auto)]

ghost use Rattle.std.specs.Prelude.{◌≡◌, ◌+◌, ◌*◌, ◌%◌, ◌≤◌, ◌<◌, length};
ghost use Rattle.paper_lower.specs.Records.{put_at};
ghost use Rattle.record_output.specs.Output.{laid, two_words, low_word, a_record_of, Fits};

// Writes a word as eight bytes from index `at` on, the lowest first.
fn write_word(out: &mut [u8], at: usize, x: u64)
    requires { at + 8 ≤ length out.old }
    ensures { out.new ≡ laid out.old at 8 x }
{
    out[at..at + 8].copy_from_slice(&x.to_le_bytes());
}

// Writes a record, given as its two words, at index `place`, counted in records from 0.
pub fn put_words(out: &mut [u8], place: usize, low: u64, high: u64)
    requires { 16 * place + 16 ≤ length out.old }
    ensures { out.new ≡ two_words out.old place low high }
{
    let at = 16 * place;
    write_word(out, at, low);
    write_word(out, at + 8, high);
}

// Multipliers: the field n is in a record's first word from bit 8 on, a from 16, b from 32, c from 48.
const N: u64 = 256;

const A: u64 = 65536;

const B: u64 = 4294967296;

const C: u64 = 281474976710656;

// The first word of a record. The second word is m.
pub fn low_word(kind: u64, n: u64, a: u64, b: u64, c: u64) -> u64
    requires { (kind < 256) × ((n < 256) × ((a < 65536) × ((b < 65536) × (c < 65536)))) }
    ensures { result ≡ low_word kind n a b c }
{
    kind + N * n + A * a + B * b + C * c
}

// Writes a record, given by its fields, at index `place`, counted in records from 0.
pub fn put(out: &mut [u8], place: usize, kind: u64, n: u64, a: u64, b: u64, c: u64, m: u64)
    requires { Fits out.old place kind n a b c }
    ensures { out.new ≡ put_at out.old place (a_record_of kind n a b c m) }
{
    let low = low_word(kind, n, a, b, c);
    put_words(out, place, low, m);
}
