//! A link between programs, whose frames travel as lines.
//!
//! A `LineLink` is a `Link` over a `Carrier`, which is anything that carries lines. A carrier may lose, repeat, reorder
//! and tear lines, and bring those of others. The link sends a frame as one line with a tag. It believes a line only if it
//! is the line of a frame for this actor under the service's secret, or one that asks this node to take a problem.
//!
//! While nothing comes the link sleeps, for longer each time. The link of a client also does this by itself:
//!
//! - It puts a line again, after a while and then after twice as long each time, until a frame of the node comes.
//! - It brings that a node is gone, once, if the node is silent for too long. It never sends that. Its `Limit` says how
//!   patient it is.
//! - If every node has answered, it asks the one that was sent to last again after a longer while.
//! - When its `Limit` is over it brings nudges, so that the client gives up. Without a limit it brings none.
//! - It learns how long each node takes to answer, and sleeps for most of that time before it looks for an answer.
//!
//! A node's link only brings what comes. Before it brings a message it reads all that has come, and drops the messages of
//! an attempt if the client has begun a later one. So a node that gets more than it can keep does no work for attempts that
//! are over. It brings a line that asks for a switch as a `Post::Switch`, each time that the
//! line comes. A client's link drops such a line. `put_switch` gives a carrier the line of a switch.
//!
//! `Folder` is a carrier over a directory, in which each actor has an inbox file. A line is appended by one write. The
//! owner reads on from where it has read. At the end of a large file it empties the file, so a line that comes in that
//! moment is lost. If the file was taken away or cut, the owner finds out after a while and starts over.
//!
//! `Outbox` is the same directory for a program that runs no actor and only puts lines.
//!
//! `Streams` is a carrier over a writer and over the lines that a thread reads, as pipes.
//!
//! The crate promises that the carrier was given the one line of each frame that was sent, in order, and otherwise only
//! lines that it was already given. So only what was sent goes out. `put_switch` gives a carrier exactly the line of the
//! switch. Each line is judged by one private function: a post is a frame only of the line of that frame for the actor,
//! and a switch only of the line of that switch for the node. Only tests show which lines come, and when.
//!
//! The crate uses `frame_lines` and `switch_lines` for lines, `lossy_link` for the trait, `event_lists` for what was
//! given, `admission_policy` for the number of a problem, `lock_messages`, `lock_model`, `hex`, `bytes` and
//! `crossbeam_channel`.
#![tactic(auto)]

mod arrivals;
mod backlogs;
mod carriers;
mod folders;
mod held_lines;
mod letters;
mod limits;
mod links;
mod pauses;
mod posts;
mod streams;
mod switches;
mod timers;

pub use carriers::{Carrier, Taken};
pub use folders::{Folder, MAX_INBOX_LEN, Outbox, inbox_path};
pub use held_lines::MAX_LINE_LEN;
pub use limits::Limit;
pub use links::LineLink;
pub use pauses::Pauses;
pub use streams::{MAX_WAITING, Streams, line_channel, read_lines};
pub use switches::put_switch;
