// One value written into a slice that is lent. Runs of such writes, tables and parts of lists are in specs/.
#![tactic(auto)]

ghost use Rattle.std.specs.Prelude.{◌+◌, ◌≤◌, [], ◌∷◌, length};
ghost use Rattle.lists.specs.Written.{Wrote};

pub fn write<T: Copy>(out: &mut [T], at: usize, x: T)
    requires { at + 1 ≤ length out.old }
    ensures { Wrote out.old at (x ∷ []) out.new }
{
    out[at] = x;
}
