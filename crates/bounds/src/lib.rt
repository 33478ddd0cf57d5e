#![tactic(auto)]

// Laws only, no code: floats that stay finite, unit normals, the seven low bits.
