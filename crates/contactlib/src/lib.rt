// What hosts are promised: thin functions over the layers below. A slice is lent whole, and a hull's lists and those of a step stand one by one, as C lends
// them. The call that is lent the cache is in lent.rt, a step over many pairs in stepped.rt, the question in asked.rt, which rule a hull breaks in judged.rt,
// the answer to a frame of bytes in framed.rt, the number of all this in abi.rt. Crate contactlib_c exports each of them by the C calling convention, under
// its own name and with its contract.
#![tactic(auto)]

pub mod abi;
pub mod asked;
pub mod framed;
pub mod judged;
pub mod lent;
pub mod stepped;
