// Marks of the numbers below 256, one bit each, in four words: what a walk has met.
#![tactic(auto)]

ghost use Rattle.std.specs.Prelude.{◌≡◌, ◌<◌};
ghost use Rattle.hull_marks.specs.inner.Marks.{mark_of, no_marks, is_marked, with_mark};

// Nothing is marked.
pub fn no_marks() -> [u64; 4]
    ensures { result ≡ no_marks }
{
    [0u64; 4]
}

// Whether i is marked.
pub fn is_marked(marks: &[u64; 4], i: usize) -> bool
    requires { i < 256 }
    ensures { result ≡ is_marked marks.now i }
{
    let shifted = marks[i / 64] >> (i % 64);
    shifted % 2 == 1
}

// i is marked; what was marked stays so.
pub fn set_mark(marks: &mut [u64; 4], i: usize)
    requires { i < 256 }
    ensures { marks.new ≡ with_mark marks.old i }
{
    marks[i / 64] |= 1u64 << (i % 64);
}

// i, which is below 128, is marked; its mark before, 1 or 0: a number and no `bool`, so that a caller takes it from a count without a branch. Each word is
// named by a number of its own, so that a caller's loop keeps both in registers.
pub fn mark_anew(marks: &mut [u64; 4], i: usize) -> usize
    requires { i < 128 }
    ensures { (result ≡ mark_of marks.old i) × (marks.new ≡ with_mark marks.old i) }
{
    if i < 64 {
        let old = marks[0] >> i;
        marks[0] |= 1u64 << i;
        return (old % 2) as usize;
    }
    let old = marks[1] >> (i - 64);
    marks[1] |= 1u64 << (i - 64);
    (old % 2) as usize
}
