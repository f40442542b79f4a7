//! Tests of the desk through its public calls: chunks in and out of order, a turn twice, a turn that is missing, each
//! write of the sink failing, and a sink that takes one byte a call.
#![tactic(auto)]

#[cfg(test)]
mod desk;
#[cfg(test)]
mod one_byte;
