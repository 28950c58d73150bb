// A whole run: 933, or 925 of the settings; what was written is a beginning of the output.

use crate::failures::{Failure, Outcome, check, refused};
use crate::policies::for_nodes;
use crate::rooms::Room;
use lock_messages::MAX_NODES;
use operator_cli::{Order, serve};
use std::alloc::Global;
use world_settings::{Command, Policies};

const SCRIPT: &str = "\
votes = [1]\nread = 1\nwrite = 1\nproblem = 1\nclients = 2\n---\n\
begin c1 read a\ntry c1\nkept c1\nsayto c1 n1\ntake n1 1\ntry n1\n\
kept n1\nsay n1\nhear c1 2\nenter c1\nenter c1\ninside a\nholding n1 a\ninside a b\n";

const EXPECTED: &str = "\
chose 1\ntried\nkept\nsent 1 request n1 c1 1 read a\nchanged\ntried\n\
kept\nsent 2 grant n1 c1 1 read a\ncounted\ninside\nrefused 604\ninside a: c1 read\n\
holding n1 a: c1 read\nline 14 fault 805\n";

/// The longest name of a resource, through the world of a script.
const LONG_NAME: &str = "\
votes = [1]\nread = 1\nwrite = 1\nproblem = 2\nclients = 1\n---\n\
begin c1 write abcdefghijklmnopqrstuvwxyz-01234\ntry c1\nkept c1\nsayto c1 n1\ntake n1 1\n\
try n1\nkept n1\nholding n1 abcdefghijklmnopqrstuvwxyz-01234\n";

const LONG_NAME_EXPECTED: &str = "\
chose 1\ntried\nkept\nsent 1 request n1 c1 1 write abcdefghijklmnopqrstuvwxyz-01234\nchanged\n\
tried\nkept\nholding n1 abcdefghijklmnopqrstuvwxyz-01234: c1 write\n";

/// A writer that softens, and what the node answers.
const SOFTENS: &str = "\
votes = [1]\nread = 1\nwrite = 1\nproblem = 2\nclients = 1\n---\n\
begin c1 write a\ntry c1\nkept c1\nsayto c1 n1\ntake n1 1\ntry n1\nkept n1\nsay n1\nhear c1 2\nenter c1\n\
soften c1\nsayto c1 n1\ntake n1 3\ntry n1\nkept n1\nsay n1\nhear c1 4\nholding n1 a\nsoften c1\n";

const SOFTENS_EXPECTED: &str = "\
chose 1\ntried\nkept\nsent 1 request n1 c1 1 write a\nchanged\ntried\nkept\n\
sent 2 grant n1 c1 1 write a\ncounted\ninside\n\
softened\nsent 3 soften n1 c1 1\nchanged\ntried\nkept\nsent 4 softened n1 c1 1\nsoftened\n\
holding n1 a: c1 read\nrefused 604\n";

/// A node takes problem 1 while a reader holds, once more, and a problem that isn't there.
const SWITCHES: &str = "\
votes = [1]\nread = 1\nwrite = 1\nproblem = 2\nclients = 1\n---\n\
begin c1 read a\ntry c1\nkept c1\nsayto c1 n1\ntake n1 1\ntry n1\nkept n1\nsay n1\n\
switch n1 1\ntry n1\nkept n1\nsay n1\nswitch n1 1\nsay n1\nholding n1 a\nswitch n1 3\n";

const SWITCHES_EXPECTED: &str = "\
chose 1\ntried\nkept\nsent 1 request n1 c1 1 read a\nchanged\ntried\nkept\n\
sent 2 grant n1 c1 1 read a\nchanged\ntried\nkept\nsame\nholding n1 a: c1 read\n\
line 16 fault 803\n";

const BAD_SETTINGS: &str = "votes = [1, 1]\nread = 1\nwrite = 1\nproblem = 1\nclients = 2\n---\n";

/// Serves a script.
fn serve_script(alloc: Global, script: &str, out: &mut Room) -> Result<u8, Failure> {
    let pairs = for_nodes(alloc, MAX_NODES)?;
    if pairs.len() != MAX_NODES as usize {
        return Err(Failure::Wrong);
    }
    let order = Order {
        command: Command::Script,
        policies: Policies { pairs },
    };
    Ok(serve(alloc, order, script.as_bytes(), out)?)
}

/// Serves a script, and judges what it wrote and its status.
fn serves(alloc: Global, script: &str, expected: &str, status: u8) -> Outcome {
    let mut out = Room::empty();
    let served = serve_script(alloc, script, &mut out);
    let told = out.bytes();
    match served {
        Ok(2) if told == b"settings fault 925\n".as_slice() => refused(true),
        Ok(ended) => check(told == expected.as_bytes() && ended == status),
        Err(failure) => {
            check(expected.as_bytes().starts_with(told))?;
            Err(failure)
        }
    }
}

#[test]
fn serve_a_script(rt: HostRuntime) -> Outcome {
    serves(rt.alloc(), SCRIPT, EXPECTED, 1)
}

#[test]
fn serve_a_long_name(rt: HostRuntime) -> Outcome {
    serves(rt.alloc(), LONG_NAME, LONG_NAME_EXPECTED, 0)
}

#[test]
fn serve_a_softening(rt: HostRuntime) -> Outcome {
    serves(rt.alloc(), SOFTENS, SOFTENS_EXPECTED, 1)
}

#[test]
fn serve_a_switch(rt: HostRuntime) -> Outcome {
    serves(rt.alloc(), SWITCHES, SWITCHES_EXPECTED, 1)
}

#[test]
fn serve_refused_settings(rt: HostRuntime) -> Outcome {
    serves(rt.alloc(), BAD_SETTINGS, "settings fault 204\n", 2)
}
