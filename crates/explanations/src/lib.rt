//! What is said in words of an input, beside what a command prints of it.
//!
//! An `Explainer` looks on as a command is served, and hears of its settings and of each line what it came to. It says a
//! line of text for each refusal, fault and verdict: its place in the input, its number, what the number means, and
//! which event, word, key, ballot or wish is wrong. What it does can't change what the command prints. `Stages` follows
//! the events to know what each actor does. `RunWords` sees the journal of a run, and adds who entered what, which
//! wishes were not done, and in which wish an actor ended with a fault.
//!
//! It stands on `fault_numbers` for what numbers mean, `world_settings` for settings, `operator_cli` for who looks on,
//! `event_lines` for lines and wishes, `event_recorders` for the faults of a run, `line_streams`, `world_machine`,
//! `world_model`, `vote_weights`, `lock_messages`, `lock_model` and `toml`.
#![tactic(auto)]

mod ballots;
mod explaining;
mod faulty;
mod heads;
mod plays;
mod refusals;
mod runs;
mod stages;
mod wrong_words;

pub use explaining::Explainer;
pub use heads::push_settings_fault;
pub use runs::RunWords;
