// Lists of calls on a rig, written as text with what each call is told; every list is performed and compared. And what the
// standard stack, which they solve by, states.
#![tactic(auto)]

#[cfg(test)]
mod both;
#[cfg(test)]
mod calls;
#[cfg(test)]
mod carrying;
#[cfg(test)]
mod changes;
#[cfg(test)]
mod examples;
#[cfg(test)]
mod lists;
#[cfg(test)]
mod refusals;
#[cfg(test)]
mod replies;
#[cfg(test)]
mod sheets;
#[cfg(test)]
mod solvers;
