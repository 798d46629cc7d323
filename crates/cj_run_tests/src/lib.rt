//! Tests of `run`, the program's one call: those that a list of inputs and outputs can't say.
//!
//! The crate has only tests, so that each crate of functions is proved once. Inputs are cut after each byte, logs are
//! cut or changed, and each thing is tried at its limit.
//! To change: `handed` has what a command is handed, and the frames; each other file has the tests of one subject. A
//! plain input with its output is a case of `cjc_cases` instead.
//! The crate has no folder of proofs: the search closes every goal.
#![tactic(auto)]

#[cfg(test)]
mod cut_inputs;
#[cfg(test)]
mod handed;
#[cfg(test)]
mod help;
#[cfg(test)]
mod limits;
#[cfg(test)]
mod logs;
