// The contacts of hulls.rs, each as a value: on a face of A, on a face of B, and of a pair of edges. What each builds is in specs/.
#![tactic(auto)]

pub mod carried;
pub mod edge;
pub mod face;
