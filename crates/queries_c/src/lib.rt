// The functions that C calls: each calls the function of the same name in the crate `queries`, and promises what that promises.
#![tactic(auto)]

pub mod ffi;
