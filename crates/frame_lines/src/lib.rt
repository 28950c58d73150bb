//! The lines by which frames travel between programs.
//!
//! A line has three parts, with a space between any two: `n1 01010100000001 .. 9f86d081884c7d65`.
//!
//! - the name of the actor that the frame is for,
//! - the frame in hexadecimal digits,
//! - a tag: the first 8 bytes of HMAC-SHA-256 of the name and the frame, under the service's secret.
//!
//! So anything that carries lines can be the network. A program believes a line only if its writer knew the secret.
//!
//! The crate promises that reading and writing are inverse. A line is accepted exactly if it is the one line of a frame
//! for this actor under this secret, and then that frame is returned. A line is dropped and counted if it is torn,
//! damaged, for another actor, of another service, or forged without the secret.
//!
//! It is a premise, not a proof, that nobody finds a tag of 64 bits without the secret. A line may come twice, since the
//! lock service allows repeats. A line is compared byte by byte, and not in constant time.
//!
//! It uses `sha2` and `hex` of the toolchain's library, `lock_messages` for actors, and `bytes`.
#![tactic(auto)]

mod inlets;
mod lines;
mod secrets;

pub use inlets::Inlet;
pub use lines::{read_frame, write_frame};
pub use secrets::Secret;
