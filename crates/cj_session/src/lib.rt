//! Sessions: what a client is answered at a desk, message by message.
//!
//! `serve_session` serves one session over a source and a sink, at any desk (the trait `Desk` of `cj_desk`).
//! Promised: what the session writes is the transcript of the bytes that it takes (`SessionTranscript` of `cj_desk`).
//! At every end the desk is asked to roll back an open transaction. If memory suffices and the clock tells its
//! moment, the bytes taken at a deterministic desk determine those written (`laws`).
//! To change: `work.rt` says what a request asks of the desk and what a transaction forbids. `client.rt` has the
//! messages, and `session.rt` the loop.
//! To read: `specs/Serving`; `specs/Proving` has single steps. Proofs begin in `proofs/Steps`, then
//! `proofs/OneTranscript`.
#![tactic(auto)]

mod client;
mod laws;
mod send;
mod session;
mod turn;
mod work;

pub use laws::bytes_have_one_session_transcript;
pub use session::serve_session;
