// Runs the script from standard input on the lower part alone, and prints its lines with the results. The file `stdout` has the expected output.
// A line of the script is one of the following, with words for the reader after the numbers. Any other line is only printed.
//   + KIND N A B C M           adds a record to the policy that is being collected (not printed)
//   new                        starts again with an empty policy (not printed)
//   with KIND N A B C M        loads the policy and this record after it: reply, place, and whether all words are zero afterwards
//   load CUT                   loads the policy without its last CUT bytes
//   room P S                   loads the policy into buffers of P and S words
//   ask KIND N A B C M         makes a request: its reply, and whether a refusal changed a word
//   in P S KIND N A B C M      the same with buffers of P and S words
//   cut LEN KIND N A B C M     the same with the first LEN bytes of the record; bytes past the record are zero
//   garble P S                 fills the buffers with meaningless numbers, drawn from the seeds P and S; 0 leaves a buffer as it is
//   try KIND N A B C M         makes a request on such buffers: whether the reply is one of the table, and whether a refusal changed a word
// The buffers are passed from line to line by value, because a proof about a value is much cheaper than a proof about a borrowed buffer.
#![tactic(auto)]

use policy::POLICY_WORDS;
use replies::Outcome;
use scripts::{Handed, Machine};
use sessions::SESSIONS_WORDS;
use std::io;

// Both buffers, each one word longer than the lower part requires.
#[derive(Clone, Copy)]
struct Words {
    p: [u64; POLICY_WORDS + 1],
    s: [u64; SESSIONS_WORDS + 1],
}

// A number for each buffer: how many of its words are passed to a call, or a seed.
#[derive(Clone, Copy)]
struct Each {
    p: u64,
    s: u64,
}

// The number of the reply, and the place of a load.
#[derive(Clone, Copy)]
struct Answer {
    reply: u64,
    place: u64,
}

// The answer of a call, and the buffers after it.
#[derive(Clone, Copy)]
struct Came {
    answer: Answer,
    words: Words,
}

// Buffers of zeros.
fn no_words() -> Words {
    Words {
        p: [0u64; POLICY_WORDS + 1],
        s: [0u64; SESSIONS_WORDS + 1],
    }
}

// The first two numbers of a line.
fn first_two(line: &[u8]) -> Each {
    Each {
        p: scripts::number(line, 1),
        s: scripts::number(line, 2),
    }
}

// How many words of each buffer a line passes to its call: as many as it says, or the fixed lengths.
fn room_of(line: &[u8]) -> Each {
    match scripts::letter(line) {
        b'r' | b'i' => first_two(line),
        _ => Each {
            p: POLICY_WORDS as u64,
            s: SESSIONS_WORDS as u64,
        },
    }
}

// What a load returned, as numbers.
fn answer_of(outcome: Outcome) -> Answer {
    Answer {
        reply: replies::number(replies::reply(outcome)),
        place: replies::place(outcome),
    }
}

// Makes the call of a line that loads or asks.
fn answered(line: &[u8], bytes: &[u8], p: &mut [u64], s: &mut [u64]) -> Answer {
    match scripts::letter(line) {
        b'w' | b'l' | b'r' => answer_of(lower::load(bytes, p, s)),
        _ => Answer {
            reply: replies::number(lower::request(bytes, p, s)),
            place: 0,
        },
    }
}

// The same, with as many words of both buffers as the line says.
fn called(line: &[u8], h: Handed, w: Words) -> Came {
    let room = room_of(line);
    let bytes = h.bytes;
    let mut p = w.p;
    let mut s = w.s;
    let pn = scripts::so_many(&p, room.p);
    let sn = scripts::so_many(&s, room.s);
    let a = answered(
        line,
        scripts::front(&bytes, h.len),
        &mut p[0..pn],
        &mut s[0..sn],
    );
    Came {
        answer: a,
        words: Words { p, s },
    }
}

// The buffers filled from seeds.
fn garbled(w: Words, seeds: Each) -> Words {
    let mut p = w.p;
    let mut s = w.s;
    scripts::garble_by(&mut p, seeds.p);
    scripts::garble_by(&mut s, seeds.s);
    Words { p, s }
}

// Whether two pairs of buffers have the same words.
fn same(w: &Words, v: &Words) -> bool {
    scripts::same(&w.p, &v.p) & scripts::same(&w.s, &v.s)
}

// Whether all words that were passed to the call are zero.
fn zeros(w: &Words, room: Each) -> bool {
    scripts::zeros_in(&w.p, room.p as usize) & scripts::zeros_in(&w.s, room.s as usize)
}

// Runs a line that loads. The buffers are filled with meaningless numbers first, because a load must not depend on them.
fn load(out: &impl Print, line: &[u8], h: Handed, w: Words) -> io::Result<Words> {
    let before = garbled(w, Each { p: 1, s: 2 });
    let c = called(line, h, before);
    let a = c.answer;
    let v = c.words;
    scripts::say_reply(out, line, a.reply)?;
    scripts::say_place(out, a.place)?;
    scripts::say_if(out, zeros(&v, room_of(line)), b", zeros")?;
    scripts::say_if(out, same(&v, &before), b", as before")?;
    scripts::say(out, b"\n")?;
    Ok(v)
}

// Prints the result of a request.
fn say_asked(out: &impl Print, line: &[u8], reply: u64) -> io::Result<()> {
    if scripts::letter(line) == b't' {
        scripts::say(out, line)?;
        scripts::say_if(out, reply <= 24, b": answered")
    } else {
        scripts::say_reply(out, line, reply)
    }
}

// Runs a line that asks.
fn ask(out: &impl Print, line: &[u8], h: Handed, w: Words) -> io::Result<Words> {
    let c = called(line, h, w);
    let a = c.answer;
    let v = c.words;
    say_asked(out, line, a.reply)?;
    scripts::say_if(out, (a.reply != 0) & !same(&v, &w), b", and words changed")?;
    scripts::say(out, b"\n")?;
    Ok(v)
}

impl Machine for Words {
    fn run<P: Print>(self, out: &P, line: &[u8], policy: &Handed) -> io::Result<Words> {
        match scripts::letter(line) {
            b'\n' | b'+' | b'n' => Ok(self),
            b'w' | b'l' | b'r' => load(out, line, scripts::handed_by(line, policy, 2), self),
            b'a' | b'i' | b'c' | b't' => ask(out, line, scripts::handed_by(line, policy, 2), self),
            b'g' => {
                scripts::say_line(out, line)?;
                Ok(garbled(self, first_two(line)))
            }
            _ => {
                scripts::say_line(out, line)?;
                Ok(self)
            }
        }
    }
}

fn main(rt: HostRuntime) -> io::Result<()> {
    let mut text = [0u8; 65536];
    let n = scripts::read_script(&mut rt.stdin(), &mut text)?;
    scripts::run_lines(&rt, &text[0..n], no_words())
}
