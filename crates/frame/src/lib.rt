// The answer to one frame of bytes, and to one line of characters, exactly as document 01's section "The hex program" has them (specs/Frames.antt,
// specs/Lines.antt). A frame is 1 to any number of bytes, its kind first; an answer is 2, 5 or 108.
// An answer goes into a list that is lent, as C lends one, and how many places it takes is returned: neither a frame's nor a line's has one fixed length.
#![tactic(auto)]

pub mod lines;

ghost use Rattle.std.specs.Prelude.{◌≡◌, ◌≤◌, length};
ghost use Rattle.frame_encode.specs.Bytes.{longest_answer};
ghost use Rattle.frame.specs.Answers.{Answers};
ghost use Rattle.frame.specs.Frames.{root_answer, flip_answer, call_answer, frame_answer};
ghost use Rattle.frame.specs.inner.Faults.{number_of, Named, Tried, Told};

use frame_call::call_of;
use frame_decode::hulls::hull_length;
use frame_decode::{float_at, pair_at, size_at};
use frame_encode::{LONGEST_ANSWER, put_answer, put_float, put_pair};
use lists::write;
use manifold::pairs::flip_pair;
use root::root;

// Why a frame or a line is answered by a fault.
#[derive(Clone, Copy)]
enum Fault {
    // Refusal 8.
    WrongOwner,
    NoHex,
    NoSuchKind,
    WrongLength,
    TooLong,
}

impl From<Fault> for u8 {
    ghost from_gives = { λ fault number. number ≡ number_of fault };

    fn from(fault: Fault) -> u8 {
        match fault {
            Fault::WrongOwner => 0x08,
            Fault::NoHex => 0x21,
            Fault::NoSuchKind => 0x22,
            Fault::WrongLength => 0x23,
            Fault::TooLong => 0x24,
        }
    }
}

// What a frame asks for.
#[derive(Clone, Copy)]
enum Kind {
    Root,
    Flip,
    Call,
}

impl TryFrom<u8> for Kind {
    type Error = Fault;

    ghost try_from_gives = { Named };

    fn try_from(byte: u8) -> Result<Kind, Fault> {
        match byte {
            0x10 => Ok(Kind::Root),
            0x11 => Ok(Kind::Flip),
            0x12 => Ok(Kind::Call),
            _ => Err(Fault::NoSuchKind),
        }
    }
}

// What was tried has its answer, or is answered by the fault: ff and the fault's number.
fn or_fault(tried: Result<usize, Fault>, answer: &mut [u8]) -> usize
    requires { longest_answer ≤ length answer.old }
    ensures { Told tried answer.old result answer.new }
{
    match tried {
        Ok(count) => count,
        Err(fault) => {
            write(answer, 0, 0xff);
            write(answer, 1, u8::from(fault));
            2
        }
    }
}

fn root_answer(frame: &[u8], answer: &mut [u8]) -> Result<usize, Fault>
    requires { longest_answer ≤ length answer.old }
    ensures { Tried (root_answer frame.now) answer.old result answer.new }
{
    if frame.len() != 5 {
        return Err(Fault::WrongLength);
    }
    write(answer, 0, 0x90);
    put_float(answer, 1, root(float_at(frame, 1)));
    Ok(5)
}

// Refusal 8 is a fault too.
fn flip_answer(frame: &[u8], answer: &mut [u8]) -> Result<usize, Fault>
    requires { longest_answer ≤ length answer.old }
    ensures { Tried (flip_answer frame.now) answer.old result answer.new }
{
    if frame.len() != 5 {
        return Err(Fault::WrongLength);
    }
    match flip_pair(pair_at(frame, 1)) {
        None => Err(Fault::WrongOwner),
        Some(pair) => {
            write(answer, 0, 0x91);
            put_pair(answer, 1, pair);
            Ok(5)
        }
    }
}

// Each hull's length follows from the sizes that are sent, whatever they are: sizes that no hull has are refused by H1 and are no fault.
fn call_answer(frame: &[u8], answer: &mut [u8]) -> Result<usize, Fault>
    requires { longest_answer ≤ length answer.old }
    ensures { Tried (call_answer frame.now) answer.old result answer.new }
{
    if frame.len() < 49 {
        return Err(Fault::WrongLength);
    }
    let size_a = size_at(frame, 41);
    let at = 41 + hull_length(size_a);
    if frame.len() < at + 8 {
        return Err(Fault::WrongLength);
    }
    let size_b = size_at(frame, at);
    if frame.len() != at + hull_length(size_b) {
        return Err(Fault::WrongLength);
    }
    put_answer(answer, call_of(frame, size_a, at, size_b));
    Ok(LONGEST_ANSWER)
}

fn try_frame(frame: &[u8], answer: &mut [u8]) -> Result<usize, Fault>
    requires { longest_answer ≤ length answer.old }
    ensures { Tried (frame_answer frame.now) answer.old result answer.new }
{
    if frame.is_empty() {
        return Err(Fault::NoSuchKind);
    }
    match Kind::try_from(frame[0])? {
        Kind::Root => root_answer(frame, answer),
        Kind::Flip => flip_answer(frame, answer),
        Kind::Call => call_answer(frame, answer),
    }
}

// The answer to a frame.
pub fn frame_answer(frame: &[u8], answer: &mut [u8]) -> usize
    requires { longest_answer ≤ length answer.old }
    ensures { Answers (frame_answer frame.now) answer.old result answer.new }
{
    let tried = try_frame(frame, answer);
    or_fault(tried, answer)
}
