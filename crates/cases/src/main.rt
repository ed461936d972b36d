// Runs the script from standard input on the whole engine, and prints its lines with the results. The file `stdout` has the expected output.
// A line of the script is one of the following, with words for the reader after the numbers. Any other line is only printed.
//   + KIND N A B C M           adds a record to the policy that is being collected (not printed)
//   new                        starts again with an empty policy (not printed)
//   with KIND N A B C M        loads the policy and this record after it: reply, place, and whether all words are zero afterwards
//   load CUT                   loads the policy without its last CUT bytes
//   room P S O                 loads the policy into buffers of P, S and O words
//   ask KIND N A B C M         makes a request: its reply, the place of the rule that refuses it, and whether a refusal changed a word
//   in P S O KIND N A B C M    the same with buffers of P, S and O words
//   cut LEN KIND N A B C M     the same with the first LEN bytes of the record; bytes past the record are zero
//   fill TIMES A B C           makes the requests claim and done (A, B, C) this many times: how many claims were granted
//   garble P S O               fills the buffers with meaningless numbers, drawn from the seeds P, S and O; 0 leaves a buffer as it is
//   try KIND N A B C M         makes a request on such buffers: whether reply and place are in range, and whether a refusal changed a word
// The buffers are passed from line to line by value, because a proof about a value is much cheaper than a proof about a borrowed buffer.
#![tactic(auto)]

ghost use Rattle.std.specs.Prelude.{◌≤◌};

use order_links::ORDERS_WORDS;
use policy::POLICY_WORDS;
use replies::Outcome;
use scripts::{Fields, Handed, Machine};
use sessions::SESSIONS_WORDS;
use std::io;

// The three buffers, each one word longer than the engine requires.
#[derive(Clone, Copy)]
struct Words {
    p: [u64; POLICY_WORDS + 1],
    s: [u64; SESSIONS_WORDS + 1],
    o: [u64; ORDERS_WORDS + 1],
}

// A number for each buffer: how many of its words are passed to a call, or a seed.
#[derive(Clone, Copy)]
struct Each {
    p: u64,
    s: u64,
    o: u64,
}

// The number of the reply, and its place.
#[derive(Clone, Copy)]
struct Answer {
    reply: u64,
    place: u64,
}

// The answer of a call, and the buffers after it.
#[derive(Clone, Copy)]
struct Came {
    answer: Answer,
    words: Words,
}

// Buffers of zeros.
fn no_words() -> Words {
    Words {
        p: [0u64; POLICY_WORDS + 1],
        s: [0u64; SESSIONS_WORDS + 1],
        o: [0u64; ORDERS_WORDS + 1],
    }
}

// The first three numbers of a line.
fn first_three(line: &[u8]) -> Each {
    Each {
        p: scripts::number(line, 1),
        s: scripts::number(line, 2),
        o: scripts::number(line, 3),
    }
}

// How many words of each buffer a line passes to its call: as many as it says, or the fixed lengths.
fn room_of(line: &[u8]) -> Each {
    match scripts::letter(line) {
        b'r' | b'i' => first_three(line),
        _ => Each {
            p: POLICY_WORDS as u64,
            s: SESSIONS_WORDS as u64,
            o: ORDERS_WORDS as u64,
        },
    }
}

// What a call returned, as numbers.
fn answer_of(outcome: Outcome) -> Answer {
    Answer {
        reply: replies::number(replies::reply(outcome)),
        place: replies::place(outcome),
    }
}

// The request of one turn of a line `fill`: a claim in even turns, done in odd ones.
fn of_turn(line: &[u8], turn: u64) -> [u8; 16] {
    scripts::bytes(Fields {
        kind: if turn % 2 == 0 { 50 } else { 52 },
        n: 0,
        a: scripts::number(line, 2),
        b: scripts::number(line, 3),
        c: scripts::number(line, 4),
        m: 0,
    })
}

// 1 if the turn was a granted claim, and 0 otherwise.
fn claims_granted(turn: u64, outcome: Outcome) -> u64
    ensures { result ≤ 1 }
{
    u64::from((turn % 2 == 0) & outcome.is_ok())
}

// A line `fill` asks for fewer claims than this: twice their number fits a u64.
const MOST_CLAIMS: u64 = 4294967296;

// Runs all turns of a line `fill`, and returns how many claims were granted.
fn filled(line: &[u8], p: &mut [u64], s: &mut [u64], o: &mut [u64]) -> u64 {
    let turns = scripts::number(line, 1) % MOST_CLAIMS * 2;
    let mut granted = 0;
    for turn in 0..turns {
        let bytes = of_turn(line, turn);
        granted += claims_granted(turn, engine::request(&bytes, p, s, o));
    }
    granted
}

// Makes the calls of a line that loads, fills or asks. For one that fills, the reply is the number of granted claims.
fn answered(line: &[u8], bytes: &[u8], p: &mut [u64], s: &mut [u64], o: &mut [u64]) -> Answer {
    match scripts::letter(line) {
        b'w' | b'l' | b'r' => answer_of(engine::load(bytes, p, s, o)),
        b'f' => Answer {
            reply: filled(line, p, s, o),
            place: 0,
        },
        _ => answer_of(engine::request(bytes, p, s, o)),
    }
}

// The same, with as many words of each buffer as the line says.
fn called(line: &[u8], h: Handed, w: Words) -> Came {
    let room = room_of(line);
    let bytes = h.bytes;
    let mut p = w.p;
    let mut s = w.s;
    let mut o = w.o;
    let pn = scripts::so_many(&p, room.p);
    let sn = scripts::so_many(&s, room.s);
    let on = scripts::so_many(&o, room.o);
    let a = answered(
        line,
        scripts::front(&bytes, h.len),
        &mut p[0..pn],
        &mut s[0..sn],
        &mut o[0..on],
    );
    Came {
        answer: a,
        words: Words { p, s, o },
    }
}

// The buffers filled from seeds.
fn garbled(w: Words, seeds: Each) -> Words {
    let mut p = w.p;
    let mut s = w.s;
    let mut o = w.o;
    scripts::garble_by(&mut p, seeds.p);
    scripts::garble_by(&mut s, seeds.s);
    scripts::garble_by(&mut o, seeds.o);
    Words { p, s, o }
}

// Whether the buffers have the same words.
fn same(w: &Words, v: &Words) -> bool {
    scripts::same(&w.p, &v.p) & scripts::same(&w.s, &v.s) & scripts::same(&w.o, &v.o)
}

// Whether all words that were passed to the call are zero.
fn zeros(w: &Words, room: Each) -> bool {
    scripts::zeros_in(&w.p, room.p as usize)
        & scripts::zeros_in(&w.s, room.s as usize)
        & scripts::zeros_in(&w.o, room.o as usize)
}

// Runs a line that loads. The buffers are filled with meaningless numbers first, because a load must not depend on them.
fn load(out: &impl Print, line: &[u8], h: Handed, w: Words) -> io::Result<Words> {
    let before = garbled(w, Each { p: 1, s: 2, o: 3 });
    let c = called(line, h, before);
    let a = c.answer;
    let v = c.words;
    scripts::say_reply(out, line, a.reply)?;
    scripts::say_place(out, a.place)?;
    scripts::say_if(out, zeros(&v, room_of(line)), b", zeros")?;
    scripts::say_if(out, same(&v, &before), b", as before")?;
    scripts::say(out, b"\n")?;
    Ok(v)
}

// Prints the result of a request.
fn say_asked(out: &impl Print, line: &[u8], a: Answer) -> io::Result<()> {
    if scripts::letter(line) == b't' {
        scripts::say(out, line)?;
        return scripts::say_if(out, (a.reply <= 24) & (a.place <= 64), b": answered");
    }
    scripts::say_reply(out, line, a.reply)?;
    if a.place != 0 {
        scripts::say_place(out, a.place)?;
    }
    Ok(())
}

// Runs a line that asks.
fn ask(out: &impl Print, line: &[u8], h: Handed, w: Words) -> io::Result<Words> {
    let c = called(line, h, w);
    let a = c.answer;
    let v = c.words;
    say_asked(out, line, a)?;
    scripts::say_if(out, (a.reply != 0) & !same(&v, &w), b", and words changed")?;
    scripts::say(out, b"\n")?;
    Ok(v)
}

// Runs a line that fills.
fn fill(out: &impl Print, line: &[u8], w: Words) -> io::Result<Words> {
    let c = called(line, scripts::nothing(), w);
    let a = c.answer;
    scripts::say_reply(out, line, a.reply)?;
    scripts::say(out, b"\n")?;
    Ok(c.words)
}

impl Machine for Words {
    fn run<P: Print>(self, out: &P, line: &[u8], policy: &Handed) -> io::Result<Words> {
        match scripts::letter(line) {
            b'\n' | b'+' | b'n' => Ok(self),
            b'w' | b'l' | b'r' => load(out, line, scripts::handed_by(line, policy, 3), self),
            b'a' | b'i' | b'c' | b't' => ask(out, line, scripts::handed_by(line, policy, 3), self),
            b'f' => fill(out, line, self),
            b'g' => {
                scripts::say_line(out, line)?;
                Ok(garbled(self, first_three(line)))
            }
            _ => {
                scripts::say_line(out, line)?;
                Ok(self)
            }
        }
    }
}

fn main(rt: HostRuntime) -> io::Result<()> {
    let mut text = [0u8; 65536];
    let n = scripts::read_script(&mut rt.stdin(), &mut text)?;
    scripts::run_lines(&rt, &text[0..n], no_words())
}
