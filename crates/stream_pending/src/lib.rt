// The characters of a line whose end has not come, held until it comes, and the ends of lines: what the program does with characters before it knows
// what they say. specs/Held.antt says how they are held, specs/Ends.antt where a line ends.
#![tactic(auto)]

ghost use Rattle.std.specs.Prelude.{true, false, List, ◌++◌, ◌≡◌, ℕ, ◌+◌, ◌≤◌, ◌<◌, length, set};
ghost use Rattle.stream_pending.specs.Ends.{to_end, longest_told};
ghost use Rattle.stream_pending.specs.Held.{Ready, Held, nothing};

// The most characters that are kept of a line.
const MOST: usize = 20000;

const LINE_END: u8 = b'\n';

// The longest answer in characters, and its line end.
const LONGEST: usize = 217;

// What is held of a line whose end has not come: how many characters, or nothing but that there were more than are kept.
#[derive(Clone, Copy)]
pub struct Pending {
    pub kept: Option<usize>,
}

// The place of the first line end, or of the end.
#[tactic(auto, using(crate::proofs::Scans::to_end_position))]
pub fn line_end(rest: &[u8]) -> usize
    ensures { result ≡ to_end rest.now }
{
    rest.iter()
        .position(|c| *c == LINE_END)
        .unwrap_or(rest.len())
}

pub fn is_nothing(p: Pending) -> bool
    ensures { result ≡ nothing p }
{
    p.kept == Some(0)
}

// More characters of the line that is held.
pub fn hold(part: &[u8], line: &mut [u8], p: Pending) -> Pending
    requires { Ready line.old p }
    ensures { Ready line.new result
        × ((xs : List ℕ) → Held xs line.old p → Held (xs ++ part.now) line.new result) }
{
    let Some(len) = p.kept else {
        return p;
    };
    if MOST - len < part.len() {
        return Pending { kept: None };
    }
    line[len..len + part.len()].copy_from_slice(part);
    Pending {
        kept: Some(len + part.len()),
    }
}

// The line end behind an answer of n characters.
pub fn end_line(out: &mut [u8], n: usize) -> usize
    requires { (n < longest_told) × (longest_told ≤ length out.old) }
    ensures { (result ≡ n + 1) × (out.new ≡ set out.old n 10) }
{
    out[n] = LINE_END;
    n + 1
}

// Whether there is more to tell, and room for the longest answer.
pub fn goes_on(i: usize, length: usize, n: usize, room: usize) -> bool
    requires { n ≤ room }
    ensures { (result ≡ true → (i < length) × (n + longest_told ≤ room)) × (result ≡ false → i < length → room < n + longest_told) }
{
    i < length && LONGEST <= room - n
}
