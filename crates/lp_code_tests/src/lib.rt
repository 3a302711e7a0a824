//! Tests of stack code: efuns, the verifier, the encoding of programs.
#![tactic(auto)]

#[cfg(test)]
mod build;
#[cfg(test)]
mod bytes;
#[cfg(test)]
mod efuns;
#[cfg(test)]
mod flows;
#[cfg(test)]
mod operands;
#[cfg(test)]
mod parts;
#[cfg(test)]
mod slots;
#[cfg(test)]
mod trips;
