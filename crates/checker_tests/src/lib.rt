// Tests of the checks at and past each limit.
#![tactic(auto)]

#[cfg(test)]
mod admission;
