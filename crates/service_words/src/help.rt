// The help of each command.

pub(crate) const FOLDER: &str = "The directory of the service";

pub(crate) const INIT_HELP: &str = "\
Makes a service in a directory: its settings, its secret, and the record and inbox of each actor.

USAGE
  rwvote init DIR < SETTINGS                               Makes a service for one machine.
  rwvote init DIR --actors LIST --secret FILE < SETTINGS   Makes the part of one machine.

DIR is new or empty: `init` makes it, and refuses a directory that is not empty. The directory above
it must exist. Standard input has the settings of `rwvote script`, without a line ---. Paste this to
try it:

rwvote init locks <<'END'
votes = [1, 1, 1]
read = 2
write = 2
problem = 1
clients = 16
END
for n in 1 2 3; do rwvote node $n locks & done
rwvote client locks <<'END'
write config
leave
END
kill %1 %2 %3

OPTIONS
  --actors LIST   The actors that run on this machine, as in n1,c1-c16. All actors by default
  --secret FILE   Copies the secret from FILE: at least 32 bytes, the same on each machine.
                  By default it is new and random
  Run each actor on one machine only.

FILES
  settings.toml   The settings. It is made last, so a directory without it is not a service.
  secret          The key of the tags of all lines between programs. Its mode is 0600.
  n1.record       The record of node 1: what it remembers after a restart. c1.record for client 1.
  n1.inbox        The lines for node 1. c1.inbox for client 1.
  n1.journal      The journal of node 1, which `rwvote node` makes. c1.journal for client 1.
  n1.batch        Where the last lines of that journal begin. Keep it beside the journal.
  Never delete a record, and never restore an older copy of one. A node that forgets its votes can
  let a writer in beside others.

OUTPUT
  Nothing if the service was made. Otherwise standard error has `fault N`, such as 961 for a directory
  that is not empty, or `settings fault N` if the settings are refused. `rwvote explain N` says what N
  means. Remove the directory before the next try.

EXIT STATUS
  0   The service was made.
  1   `fault N` is on standard error.
  2   The settings or the command-line arguments were refused.";

pub(crate) const NODE_HELP: &str = "\
Runs a node of a service, until it is killed.

USAGE
  rwvote node N DIR                  Runs node N of the service in DIR.
  rwvote node N DIR --pipes          Reads lines on standard input, writes lines to standard output.
  rwvote node N DIR --no-journal     Writes no journal.
  rwvote node N DIR --sync-journal   Syncs each line of the journal: a power cut loses none.

`rwvote init` makes the service. Paste this to try it:

rwvote init locks <<'END'
votes = [1]
read = 1
write = 1
problem = 1
clients = 2
END
rwvote node 1 locks &
rwvote client locks <<'END'
write config
leave
END
kill %1

A node may be killed at any moment, also by kill -9, and started again. No reply leaves before the
record on which it rests is synced. While a node is down, clients ask it again, and go on with the
other nodes if these have enough votes.
A node has one process: a second one ends with fault 941.

LINES OF --pipes
  A line is an actor, a frame in hexadecimal digits, and a tag: n1 HEX TAG. The node ignores a line
  that is for another actor, damaged, or without the tag of the secret. Any program that carries lines
  can be the network. Lines may be lost, repeated and reordered. The node ends when its input ends.

OUTPUT
  One line on standard error once the node is ready. Without --pipes nothing on standard output.
  If the node ends with a fault, `fault N` is on standard error. `rwvote explain N` says what N means.

EXIT STATUS
  0   The input of --pipes ended.
  1   `fault N` is on standard error.
  2   The settings or the command-line arguments were refused.";

pub(crate) const CLIENT_HELP: &str = "\
Runs a client of a service: it reads commands, and answers each by a line.

USAGE
  rwvote client DIR                  Runs the lowest client of the service that no process has.
  rwvote client C DIR                Runs client C.
  rwvote client C DIR --pipes --commands FILE --answers FILE
                                     Reads commands and writes answers in these files, as /dev/fd/3.
                                     Lines of nodes come on standard input, and those for nodes go
                                     to standard output.
  rwvote client DIR --no-journal     Writes no journal.
  rwvote client DIR --sync-journal   Syncs each line of the journal: a power cut loses none.

`rwvote init` makes the service. Paste this to try it:

rwvote init locks <<'END'
votes = [1]
read = 1
write = 1
problem = 1
clients = 2
END
rwvote node 1 locks &
rwvote client locks <<'END'
write config
leave
END
kill %1

COMMANDS
  Command                    Answer            What it does
  read NAME                  inside            Waits until the client is inside as a reader
  write NAME                 inside            The same as a writer, alone
  read NAME bP               inside            The same with ballot P. `write` for read
  read NAME within MS        inside, late      Waits MS milliseconds at most. `late`: it asks no more
  try read NAME              inside, busy      Does not wait. `try write NAME` too
  soften                     softened          A writer that is inside goes on as a reader
  leave                      outside           The client leaves, and releases its votes
  status                     what it has       What the client holds, and when each node last answered
  anything else              unknown           Changes nothing. Standard error has a line of usage

  NAME is 1 to 32 of a-z, 0-9 and -. Instead of an answer `fault N` may come: 703 if there is no
  ballot P, and 912 after `try` if too few nodes answer. Each answer is written out at once.
  When the input ends, the client leaves and ends. A client may be killed at any moment. Its next life
  first releases what the last one held, and so does `rwvote reap`.

LINES OF --pipes
  As for `rwvote node`.

OUTPUT
  The answers. If the client ends with a fault, `fault N` is on standard error.
  `rwvote explain N` says what N means.

EXIT STATUS
  0   The commands ended, and the client left.
  1   `fault N` is on standard error.
  2   The settings or the command-line arguments were refused.";

pub(crate) const REAP_HELP: &str = "\
Releases what dead clients hold.

USAGE
  rwvote reap DIR                   Looks once at each client of the service in DIR.
  rwvote reap DIR --every SECONDS   Looks again after so many seconds, until it is killed.

Paste this to try it, in a directory with a service whose nodes run:

rwvote reap locks --every 1

A client's process has the lock of its record's file. If the process dies, also by kill -9, the
operating system gives up this lock. So a program that gets it knows that the client no longer runs.
`reap` takes the record of each client that no process has, and that may hold votes. It runs a life
of this client that releases them, and ends it. So a lock whose holder was killed is free again,
without a lease and without a clock.

This needs one of two: all processes of the service run on one machine, or the file system has locks
that work between machines. Otherwise do not run `reap`: a client that still runs could lose its
votes.

OUTPUT
  A line for each client that was released, or that could not be.
  If DIR is not a service, `fault N` is on standard error. `rwvote explain N` says what N means.

EXIT STATUS
  0   No dead client is left that may hold votes.
  1   One is left, or `fault N` is on standard error.
  2   The settings or the command-line arguments were refused.";

pub(crate) const STATUS_HELP: &str = "\
Shows a service at a glance: its nodes, its clients that run, and who holds and waits for what.

USAGE
  rwvote status DIR   Shows the service in DIR.

Paste this to try it, in a directory with a service:

rwvote status locks

It reads records, and asks whether their files are locked. It writes nothing, sends nothing, and
disturbs nobody. Programs that run may change what it shows while it reads.

OUTPUT
  Each node: whether it runs, its problem, and how many hold its vote and wait for it.
  Each client that runs. Each resource, with who holds it and who waits for it.
  `fault N` on standard error if DIR is not a service. `rwvote explain N` says what N means.

EXIT STATUS
  0   The service was shown.
  1   `fault N` is on standard error.
  2   The settings or the command-line arguments were refused.";

pub(crate) const SWITCH_HELP: &str = "\
Lets a node take a problem: whether a reader enters while a writer waits.

USAGE
  rwvote switch N 1 DIR           Node N takes problem 1: a reader enters while a writer waits.
  rwvote switch N 2 DIR           Node N takes problem 2: a reader waits behind the writer.
  rwvote switch N 1 DIR --pipes   Writes the line that asks node N, and does nothing else.

The node may run. Paste this to try it:

rwvote init locks <<'END'
votes = [1]
read = 1
write = 1
problem = 1
clients = 2
END
rwvote node 1 locks &
sleep 1
rwvote switch 1 2 locks
rwvote status locks
kill %1

A node that runs is asked by a line in its inbox, again and again for 3 seconds at most. The line has
a tag of the service's secret. A node that runs with --pipes reads no inbox: carry the line of
`rwvote switch N 1 DIR --pipes` to it. The node takes the problem each time that such a line comes,
also if the line comes late or again.

The record of the node keeps the problem. Nodes may have different problems. A writer is alone in
any case.

OUTPUT
  If the node runs: `n1 runs, and has problem 2 (writer-first) now`. If it does not run: nothing.
  With --pipes: the line. If the node runs and does not take the problem in time, fault 970 is on
  standard error. `rwvote explain N` says what N means.

EXIT STATUS
  0   The node has the problem. With --pipes: the line was written.
  1   `fault N` is on standard error.
  2   The settings or the command-line arguments were refused.";
