// Vectors, planes and boxes of binary32 numbers, and the helpers on them that the Rust text leans on and does not hold.
// Each helper is one reading, fixed in specs/; every operation is rounded once, in the order written there, and nothing is fused.
#![tactic(auto)]

pub mod arithmetic;
pub mod awaited;
pub mod scalar;
pub mod shape;

#[repr(C)]
#[derive(Clone, Copy)]
pub struct Vec3 {
    pub x: f32,
    pub y: f32,
    pub z: f32,
}

// A quaternion: the vector part and, last, the scalar.
#[repr(C)]
#[derive(Clone, Copy)]
pub struct Quat {
    pub v: Vec3,
    pub s: f32,
}

#[repr(C)]
#[derive(Clone, Copy)]
pub struct Transform {
    pub p: Vec3,
    pub q: Quat,
}

// The points v with normal . v = offset.
#[repr(C)]
#[derive(Clone, Copy)]
pub struct Plane {
    pub normal: Vec3,
    pub offset: f32,
}

// A box with sides along the axes.
#[repr(C)]
#[derive(Clone, Copy)]
pub struct Aabb {
    pub lower: Vec3,
    pub upper: Vec3,
}
