// The program: each line of standard input is answered by one line on standard output (document 01, "The hex program"). What a reader gives and what a
// writer takes is told where their bytes are known: then all of the input is told, and nothing else written (`whole` of `run`). Of standard input and
// output no contract can say what they give or take; between a read and a write everything is exact all the same: which characters are told, what is told
// of them, how much of it goes to the write, and what is held until the next read (specs/Turns.antt, and `Tells` of crate stream).
#![tactic(auto)]

ghost use Rattle.std.specs.Prelude.{true, false, List, ◌≡◌, ℕ, ◌-◌, ◌≤◌, ◌<◌, length, take, IfSome};
ghost use Rattle.std.specs.Io.KnownBytes.{Appends};
ghost use Rattle.frame.specs.Answers.{Answers};
ghost use Rattle.stream_pending.specs.Ends.{longest_told};
ghost use Rattle.stream_pending.specs.Held.{Ready, Held};
ghost use Rattle.stream.specs.Tells.{Tells};
ghost use Rattle.stream.specs.Told.{told_last};
ghost use Rattle.contact.specs.Turns.{Fits, unread, Arrives, Turned, told_of, Ended};

use std::io::{Read, Write};
use std::process::ExitCode;
use stream::{Part, tell_last, tell_part};
use stream_pending::Pending;

// The characters `from` up to `to` of the chunk, which were read and are not told yet, and whether the read that was made for them, if one was, went well.
// No Result: `from` and `to` say where the next turn begins after a read that failed too (record Arrives).
#[derive(Clone, Copy)]
pub struct Left {
    pub from: usize,
    pub to: usize,
    pub ok: bool,
}

// What there is to tell: what is left, or else what one read brings. A read that fails ends the input, as does one that brings nothing.
fn refill<R: Read>(input: &mut R, chunk: &mut [u8], from: usize, to: usize) -> Left
    requires { to ≤ length chunk.old }
    ensures left { (result.from ≤ result.to) × (result.to ≤ length chunk.new)
        × (from < to → (chunk.new ≡ chunk.old) × (result.from ≡ from) × (result.to ≡ to)) × (to ≤ from → result.from ≡ 0)
        × (from < to → result.ok ≡ true) × (result.ok ≡ false → result.to ≡ 0) }
    ensures arrives { Arrives (R.remaining input.old) (R.remaining input.new) from to result.to result.ok chunk.new }
{
    if from < to {
        return Left { from, to, ok: true };
    }
    match input.read(chunk) {
        Ok(n) => Left {
            from: 0,
            to: n,
            ok: true,
        },
        Err(_) => Left {
            from: 0,
            to: 0,
            ok: false,
        },
    }
}

// How many places were handed to the write, and whether it took them all. No Result: the count holds of a write that failed too (clause `count`).
#[derive(Clone, Copy)]
pub struct Written {
    pub count: usize,
    pub ok: bool,
}

// The first n places of `out` go to one write. Answers leave nowhere else.
fn write_answers<W: Write>(output: &mut W, out: &[u8], n: usize) -> Written
    requires { n ≤ length out.now }
    ensures count { result.count ≡ n }
    ensures leaves { result.ok ≡ true → Appends (W.contents output.old) (W.contents output.new) (take n out.now) }
{
    let answers = &out[..n];
    Written {
        ok: output.write_all(answers).is_ok(),
        count: answers.len(),
    }
}

// Where the program stands between two turns. The characters `from` up to `to` of the chunk were read and are not told yet; `part` was told in the last
// turn, its `count` places of `out` were handed to the write, and `ok` says whether that took them all. `read` says whether the last turn's read went well.
// No Result in place of the two: where the program stands is known after a failure too (records Turned and Arrives).
#[derive(Clone, Copy)]
pub struct State {
    pub from: usize,
    pub to: usize,
    pub part: Part,
    pub ok: bool,
    pub read: bool,
}

impl State {
    // Whether no turn comes after this one: the input ended or could not be read, or a write failed.
    fn is_last(&self) -> bool
        ensures { (self.now.to ≡ 0 → result ≡ true) × (self.now.ok ≡ false → result ≡ true) × (0 < self.now.to → self.now.ok ≡ true → result ≡ false) }
    {
        self.to == 0 || !self.ok
    }
}

// At most one read, what is told of what there is, and at most one write.
fn turn_once<R: Read, W: Write>(
    input: &mut R,
    output: &mut W,
    chunk: &mut [u8],
    line: &mut [u8],
    out: &mut [u8],
    s: State,
) -> State
    requires { Fits chunk.old line.old s × (longest_told ≤ length out.old) }
    ensures turned { Fits chunk.new line.new result × Turned s chunk.old result chunk.new
        × ((xs : List ℕ) → Held xs line.old s.part.held
        → Tells xs (unread s result chunk.new) out.old result.part line.new out.new) }
    ensures arrives { Arrives (R.remaining input.old) (R.remaining input.new) s.from s.to result.to result.read chunk.new }
    ensures leaves { result.ok ≡ true → Appends (W.contents output.old) (W.contents output.new) (take result.part.count out.new) }
{
    let Left { from, to, ok: read } = refill(input, chunk, s.from, s.to);
    if from == to {
        return State {
            from,
            to,
            part: Part {
                taken: 0,
                held: s.part.held,
                count: 0,
            },
            ok: true,
            read,
        };
    }
    let part = tell_part(&chunk[from..to], line, s.part.held, out);
    let written = write_answers(output, out, part.count);
    State {
        from: from + part.taken,
        to,
        part: Part {
            count: written.count,
            ..part
        },
        ok: written.ok,
        read,
    }
}

// What is told at the end of the input, and its write: how many places it was handed, and whether it took them all. Where a write failed nothing further
// is told.
fn finish<W: Write>(output: &mut W, line: &[u8], p: Pending, out: &mut [u8], ok: bool) -> Written
    requires { Ready line.now p × (longest_told ≤ length out.old) }
    ensures told { (ok ≡ true → (xs : List ℕ) → Held xs line.now p → Answers (told_last xs) out.old result.count out.new)
        × (ok ≡ false → result.count ≡ 0) × (ok ≡ false → result.ok ≡ false) }
    ensures leaves { result.ok ≡ true → Appends (W.contents output.old) (W.contents output.new) (take result.count out.new) }
{
    if !ok {
        return Written {
            count: 0,
            ok: false,
        };
    }
    let n = tell_last(line, p, out);
    write_answers(output, out, n)
}

// Whether the input came to its end, and every read and every write went well.
fn ended_well(to: usize, read: bool, ok: bool) -> bool
    ensures { (result ≡ true → (to ≡ 0) × (read ≡ true) × (ok ≡ true)) × (ok ≡ false → result ≡ false)
        × (to ≡ 0 → read ≡ true → ok ≡ true → result ≡ true) }
{
    to == 0 && read && ok
}

// What is held at the end of the input, how many places were handed to the last write, whether the writes before it took everything, whether every read
// went well and every write did, and whether all went well to the end of the input. No Result: record Ended speaks of each, after a failure too.
#[derive(Clone, Copy)]
pub struct End {
    pub held: Pending,
    pub count: usize,
    pub ok: bool,
    pub read: bool,
    pub wrote: bool,
    pub all: bool,
}

// A proved loop has to end, and nothing says that the input does: there is a number of turns that no run uses up.
fn run<R: Read, W: Write>(
    input: &mut R,
    output: &mut W,
    chunk: &mut [u8],
    line: &mut [u8],
    out: &mut [u8],
) -> End
    requires { (length line.old ≡ 20000) × (longest_told ≤ length out.old) }
    ensures ended { (xs : List ℕ) → Held xs line.new result.held → Ended xs result out.new }
    ensures whole { 0 < length chunk.old → result.all ≡ true → IfSome (R.remaining input.old)
        (λ xs. Appends (W.contents output.old) (W.contents output.new) (told_of xs)) }
{
    let mut s = State {
        from: 0,
        to: 0,
        part: Part {
            taken: 0,
            held: Pending { kept: Some(0) },
            count: 0,
        },
        ok: true,
        read: false,
    };
    for _ in 0..u64::MAX {
        s = turn_once(input, output, chunk, line, out, s);
        if s.is_last() {
            break;
        }
    }
    let last = finish(output, line, s.part.held, out, s.ok);
    End {
        held: s.part.held,
        count: last.count,
        ok: s.ok,
        read: s.read,
        wrote: last.ok,
        all: ended_well(s.to, s.read, last.ok),
    }
}

// How many places there are for what one read brings, and for what one write is handed.
const CHUNK: usize = 65536;

// Its status is 0 where all that was read was told and taken, else 1, and a sentence on standard error says why. What standard input and output give and
// take no contract can say, so there is nothing that it could ensure.
fn main(rt: HostRuntime) -> ExitCode {
    let mut input = rt.stdin();
    let mut output = rt.stdout();
    let mut chunk = [0; CHUNK];
    let mut line = [0; 20000];
    let mut out = [0; CHUNK];
    let end = run(&mut input, &mut output, &mut chunk, &mut line, &mut out);
    if !end.read {
        let _ = rt.eprintln("contact: the input could not be read");
    }
    if !end.wrote {
        let _ = rt.eprintln("contact: the answers could not be written");
    }
    if end.all {
        ExitCode::SUCCESS
    } else {
        ExitCode::FAILURE
    }
}
