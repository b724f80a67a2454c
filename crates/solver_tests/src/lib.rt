// What both bottom solvers answer to drawings at their limits and of each kind, one after the other in the same memory.
#![tactic(auto)]

#[cfg(test)]
mod cases;
