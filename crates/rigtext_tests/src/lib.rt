// What is read of texts, of each form of line and at each limit: the rig or the fault, and the place.
#![tactic(auto)]

#[cfg(test)]
mod cases;
#[cfg(test)]
mod spelling;
#[cfg(test)]
mod telling;
