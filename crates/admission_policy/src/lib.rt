//! Policies: which readers a node admits to a resource that a writer holds or waits for.
//!
//! `Admission` is what a policy is: the problem that it solves (Courtois, Heymans and Parnas 1971),
//! its answer by that problem's rule, and a tally of the answers that were put to use. What it means
//! is in ghost members and in the clauses of its methods, so code over a `&dyn Admission` or a
//! `Box<dyn Admission + Send>` is proved once, for every policy; such a box is a policy too.
//! `FirstProblem` and `SecondProblem` are the two rules, and `Counted` counts what another policy is
//! told. A `Pair` has a policy of each problem, and asks and tells the one of the problem that it is
//! called with; a half without a policy goes by the plain rule. No call takes memory.
//!
//! The crate promises that each policy answers by the rule of its problem, that a note changes no
//! answer, and that a pair tells one half alone. It stands on `lock_model`, which has the two problems and their rule.
#![tactic(auto)]

mod admission;
mod boxes;
mod counted;
mod first;
mod pairs;
mod second;

pub use admission::{Admission, problem_of};
pub use counted::Counted;
pub use first::FirstProblem;
pub use pairs::Pair;
pub use second::SecondProblem;
