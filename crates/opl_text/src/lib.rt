// Readers for the bytes of a policy text: white space, comments, names, values, literals. Each returns the index where it stopped; a value is returned as the
// part of the text between its quotes. They are proved against paper_opl's definitions of the same names (specs/Reading).
#![tactic(auto)]

ghost use Rattle.std.specs.Prelude.{◌≡◌, ℕ, Bool, [], ◌∷◌, ◌+◌, ◌-◌, ◌≤◌, length, take, drop};
ghost use Rattle.paper_opl.specs.Reading.{text, white as whiteOf, control as controlOf, in_name, in_value, same, starts, expect as expect_of, behind, name as name_of, value as value_in, equals as equalsOf, comment, misc};
ghost use Rattle.opl_text.specs.Steps.{From, Reads, step_of, word_of, value_of, Surely, Runs, RunsSame, Decides, Implies};

// The index of the byte that is not allowed where it stands.
#[derive(Clone, Copy, PartialEq, Eq)]
pub struct BadByte {
    pub at: usize,
}

// Where a reader stopped: after what it read, or at the byte that is not allowed.
pub type Step = Result<usize, BadByte>;

// Whether a byte is white space.
pub fn white(b: u8) -> bool
    ensures { result ≡ whiteOf b }
{
    (b == 32) | (b == 9) | (b == 10) | (b == 13)
}

// Whether a byte is a control byte other than white space.
pub fn control(b: u8) -> bool
    ensures { result ≡ controlOf b }
{
    (b < 32) & !white(b)
}

// Whether a byte may occur in a name. Letters are the most frequent bytes, so they are tested first, here and in `in_value`.
pub fn in_name(b: u8) -> bool
    ensures { result ≡ in_name b }
{
    if 97 <= b {
        return (b <= 122) | (128 <= b);
    }
    ((65 <= b) & (b <= 90)) | ((48 <= b) & (b <= 58)) | (b == 95) | (b == 45) | (b == 46)
}

// Whether a byte may occur in a value between quotes q.
pub fn in_value(q: u8, b: u8) -> bool
    ensures { result ≡ in_value q b }
{
    if 64 <= b {
        return b != q;
    }
    !((b == q) | (b == 60) | (b == 38) | control(b))
}

// Whether the byte at `at` is b.
#[tactic(auto, using(crate::proofs::Laws::at_end, crate::proofs::Laws::at_here))]
pub fn is_at(s: &[u8], at: usize, b: u8) -> bool
    ensures { result ≡ starts (b ∷ []) (drop at s.now) }
{
    if s.len() <= at {
        return false;
    }
    b == s[at]
}

// ---- Searches. A test of bytes is a parameter; the contracts hold for every property of bytes that the test decides.

// The index of the first byte from `at` on that does not pass; the length of the text if all pass. There is one way out, which keeps the copies of this loop in
// `skip_misc` short (DECISIONS D265).
pub fn first_not<F: Fn(u8) -> bool>(s: &[u8], at: usize, passes: F) -> usize
    requires inside { at ≤ length s.now }
    requires callable { F.IsAlwaysCallable passes }
    ensures { (p : ℕ → Bool) → Decides (F.post passes) p → From s.now (behind p (drop at s.now)) result }
{
    let mut end = at;
    for i in at..s.len() {
        if !passes(s[i]) {
            break;
        }
        end = i + 1;
    }
    end
}

// Whether the eight bytes from i on pass.
fn all_eight<F: Fn(u8) -> bool>(s: &[u8], i: usize, passes: F) -> bool
    requires inside { i + 8 ≤ length s.now }
    requires callable { F.IsAlwaysCallable passes }
    ensures { (p : ℕ → Bool) → Implies (F.post passes) p → Runs p s.now i result }
{
    passes(s[i])
        & passes(s[i + 1])
        & passes(s[i + 2])
        & passes(s[i + 3])
        & passes(s[i + 4])
        & passes(s[i + 5])
        & passes(s[i + 6])
        & passes(s[i + 7])
}

// The same index as `first_not`, eight bytes at a time while all eight pass a quick test, which may be false for bytes that pass, and then byte by byte.
pub fn first_not_by_eights<Q: Fn(u8) -> bool, F: Fn(u8) -> bool>(
    s: &[u8],
    at: usize,
    quick: Q,
    passes: F,
) -> usize
    requires inside { at ≤ length s.now }
    requires quick_callable { Q.IsAlwaysCallable quick }
    requires callable { F.IsAlwaysCallable passes }
    ensures { (p : ℕ → Bool) → Implies (Q.post quick) p → Decides (F.post passes) p → From s.now (behind p (drop at s.now)) result }
{
    let mut i = at;
    while 8 <= s.len() - i && all_eight(s, i, &quick) {
        i += 8;
    }
    first_not(s, i, passes)
}

// The index after the white space that begins at `at`.
pub fn skip_space(s: &[u8], at: usize) -> usize
    requires { at ≤ length s.now }
    ensures { From s.now (behind whiteOf (drop at s.now)) result }
{
    first_not(s, at, white)
}

// The index after the name that begins at `at`.
pub fn name_end(s: &[u8], at: usize) -> usize
    requires { at ≤ length s.now }
    ensures { From s.now (behind in_name (drop at s.now)) result }
{
    first_not(s, at, in_name)
}

// A quick test that a byte may occur in a value; it is false for some bytes that may.
fn often_in_value(q: u8, b: u8) -> bool
    ensures { Surely (in_value q b) result }
{
    (b != q) & (b != 60) & (40 <= b)
}

// The index of the first byte from `at` on that may not occur between quotes q.
pub fn value_end(s: &[u8], at: usize, q: u8) -> usize
    requires { at ≤ length s.now }
    ensures { From s.now (behind (in_value q) (drop at s.now)) result }
{
    first_not_by_eights(s, at, |b| often_in_value(q, b), |b| in_value(q, b))
}

// Reads "=" with any white space around it.
#[tactic(auto, using(crate::proofs::Literals::equals_not, crate::proofs::Literals::equals_room, crate::proofs::Literals::equals_yes))]
pub fn equals(s: &[u8], at: usize) -> Step
    requires { at ≤ length s.now }
    ensures { Reads s.now (step_of s.now) (equalsOf (drop at s.now)) result }
{
    let i = skip_space(s, at);
    if !is_at(s, i, 61) {
        return Err(BadByte { at: i });
    }
    let j = skip_space(s, i + 1);
    Ok(j)
}

// Reads a name of at least one byte.
#[tactic(auto, using(crate::proofs::Laws::no_word, crate::proofs::Laws::a_word))]
pub fn read_name(s: &[u8], at: usize) -> Step
    requires { at ≤ length s.now }
    ensures { Reads s.now (word_of s.now at) (name_of (drop at s.now)) result }
{
    let e = name_end(s, at);
    if e == at {
        return Err(BadByte { at });
    }
    Ok(e)
}

// Reads a quoted value. `Ok` holds the index of its closing quote, so the value lies between at + 1 and there.
#[tactic(auto, using(crate::proofs::Laws::value_end, crate::proofs::Laws::value_not, crate::proofs::Laws::value_cut, crate::proofs::Laws::value_got))]
pub fn read_value(s: &[u8], at: usize) -> Step
    requires { at ≤ length s.now }
    ensures { Reads s.now (value_of s.now (at + 1)) (value_in (drop at s.now)) result }
{
    if s.len() <= at {
        return Err(BadByte { at });
    }
    let q = s[at];
    if !((q == 34) | (q == 39)) {
        return Err(BadByte { at });
    }
    let e = value_end(s, at + 1, q);
    if !is_at(s, e, q) {
        return Err(BadByte { at: e });
    }
    Ok(e)
}

// Reads the rest of a comment, from the end of its "<!--" on.
#[tactic(auto, using(crate::proofs::Laws::comment_end, crate::proofs::Laws::comment_hit, crate::proofs::Laws::comment_bad, crate::proofs::Laws::comment_more, crate::proofs::Laws::closing_end, crate::proofs::Laws::closing_yes, crate::proofs::Laws::closing_not))]
pub fn comment_end(s: &[u8], at: usize) -> Step
    requires { at ≤ length s.now }
    ensures { Reads s.now (step_of s.now) (comment (drop at s.now)) result }
{
    for i in at..s.len() {
        if is_at(s, i, 45) & is_at(s, i + 1, 45) {
            if s.len() <= i + 2 {
                return Err(BadByte { at: s.len() });
            }
            if s[i + 2] == 62 {
                return Ok(i + 3);
            }
            return Err(BadByte { at: i });
        }
        if control(s[i]) {
            return Err(BadByte { at: i });
        }
    }
    Err(BadByte { at: s.len() })
}

// Whether a comment begins at `at`.
pub fn opens_comment(s: &[u8], at: usize) -> bool
    requires { at ≤ length s.now }
    ensures { result ≡ starts (text "<!--") (drop at s.now) }
{
    is_at(s, at, 60) & is_at(s, at + 1, 33) & is_at(s, at + 2, 45) & is_at(s, at + 3, 45)
}

// Reads white space and comments.
pub fn skip_misc(s: &[u8], at: usize) -> Step
    requires { at ≤ length s.now }
    ensures { Reads s.now (step_of s.now) (misc (length (drop at s.now)) (drop at s.now)) result }
{
    let mut i = skip_space(s, at);
    while opens_comment(s, i) {
        let end = comment_end(s, i + 4)?;
        i = skip_space(s, end);
    }
    Ok(i)
}

// Whether eight bytes of both from i on are equal.
fn same_run(v: &[u8], w: &[u8], i: usize) -> bool
    requires { (i + 8 ≤ length v.now) × (i + 8 ≤ length w.now) }
    ensures { RunsSame v.now w.now i result }
{
    (v[i] == w[i])
        & (v[i + 1] == w[i + 1])
        & (v[i + 2] == w[i + 2])
        & (v[i + 3] == w[i + 3])
        & (v[i + 4] == w[i + 4])
        & (v[i + 5] == w[i + 5])
        & (v[i + 6] == w[i + 6])
        & (v[i + 7] == w[i + 7])
}

// Whether two byte strings of one length are equal from `from` on, byte by byte.
#[tactic(auto, using(crate::proofs::Same::same_more, crate::proofs::Same::same_not, crate::proofs::Same::same_end))]
fn same_rest(v: &[u8], w: &[u8], from: usize) -> bool
    requires { (from ≤ length v.now) × (length v.now ≡ length w.now) }
    ensures { result ≡ same (drop from v.now) (drop from w.now) }
{
    for i in from..v.len() {
        if v[i] != w[i] {
            return false;
        }
    }
    true
}

// Whether two byte strings are equal. This one is for comparing with a fixed word of the grammar: the compiler turns the loop into direct comparisons.
#[tactic(auto, using(crate::proofs::Same::other_length))]
pub fn same_bytes(v: &[u8], w: &[u8]) -> bool
    ensures { result ≡ same v.now w.now }
{
    if v.len() != w.len() {
        return false;
    }
    same_rest(v, w, 0)
}

// The same, eight bytes at a time, for comparing two parts of texts.
#[tactic(auto, using(crate::proofs::Same::other_length))]
pub fn same_by_eights(v: &[u8], w: &[u8]) -> bool
    ensures { result ≡ same v.now w.now }
{
    if v.len() != w.len() {
        return false;
    }
    let mut i = 0;
    while 8 <= v.len() - i && same_run(v, w, i) {
        i += 8;
    }
    same_rest(v, w, i)
}

// Reads exactly the bytes of w.
#[tactic(auto, using(crate::proofs::Literals::literal_end, crate::proofs::Literals::literal_cut, crate::proofs::Literals::literal_room, crate::proofs::Literals::literal_more))]
pub fn expect(s: &[u8], at: usize, w: &[u8]) -> Step
    requires { at ≤ length s.now }
    ensures { Reads s.now (step_of s.now) (expect_of w.now (drop at s.now)) result }
{
    for i in 0..w.len() {
        if !is_at(s, at + i, w[i]) {
            return Err(BadByte { at: at + i });
        }
    }
    Ok(at + w.len())
}

// Whether the text has the bytes of w at `at`.
pub fn starts_with(s: &[u8], at: usize, w: &[u8]) -> bool
    requires { at ≤ length s.now }
    ensures { result ≡ starts w.now (drop at s.now) }
{
    expect(s, at, w).is_ok()
}

// The part of the text from `at` up to `end`.
pub fn part(s: &[u8], at: usize, end: usize) -> &[u8]
    requires { (at ≤ end) × (end ≤ length s.now) }
    ensures { result.now ≡ take (end - at) (drop at s.now) }
{
    &s[at..end]
}

// The value between the opening quote at `at` and the closing quote at `end`.
pub fn quoted(s: &[u8], at: usize, end: usize) -> &[u8]
    requires { (at + 1 ≤ end) × (end ≤ length s.now) }
    ensures { result.now ≡ take (end - (at + 1)) (drop (at + 1) s.now) }
{
    let from = at + 1;
    &s[from..end]
}
