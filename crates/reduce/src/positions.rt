// The positions of the images, worked out once before the four searches read them: 64 numbers along x, 64 along y and 64 along z.
ghost use Rattle.std.specs.Prelude.{◌≡◌, length};

use vector::Vec3;

// Three lists and not one of `Vec3`: definition `position_in` and record `Put` (specs/inner/Held.antt) read a list along each axis. `room` says of the
// lists what their types say, so that proofs can name it.
#[derive(Clone, Copy)]
pub struct Positions {
    pub x: [f32; 64],
    pub y: [f32; 64],
    pub z: [f32; 64],
    pub ghost room: { (length x ≡ 64) × (length y ≡ 64) × (length z ≡ 64) },
}

impl Positions {
    ghost use Rattle.std.specs.Prelude.{◌<◌};
    ghost use Rattle.reduce.specs.inner.Held.{position_in, Put};

    // Position i, and position i becomes p.
    pub fn at(&self, i: usize) -> Vec3
        requires { i < 64 }
        ensures { result ≡ position_in self.now i }
    {
        Vec3 {
            x: self.x[i],
            y: self.y[i],
            z: self.z[i],
        }
    }

    pub fn put(&mut self, i: usize, p: Vec3)
        requires { i < 64 }
        ensures { Put self.old i p self.new }
    {
        self.x[i] = p.x;
        self.y[i] = p.y;
        self.z[i] = p.z;
    }
}
