// The help of the program and of each command.

pub(crate) const ABOUT: &str = "\
A lock service for readers and writers, decided by the votes of nodes.

`rwvote init` makes a service in a directory, and `rwvote node` and `rwvote client` run its actors.
`rwvote script` and `rwvote run` run a service in one process, by a script or a list of wishes.

`rwvote help COMMAND` shows the lines and settings of a command, with an example to paste.
`rwvote explain N` says what a printed number N means.
`rwvote record FILE` prints what a record's file holds.";

pub(crate) const SCRIPT_HELP: &str = "\
Plays a script: one event or query a line, each answered at once.

USAGE
  rwvote script < FILE             Plays the script in FILE.
  rwvote script --explain < FILE   Also says on standard error, in words, what is refused and why.

Standard input has settings in TOML, a line ---, and the lines of the script. Paste this to try it:

rwvote script <<'END'
votes = [1]
read = 1
write = 1
problem = 1
clients = 2
---
begin c1 read a
try c1
kept c1
sayto c1 n1
take n1 1
try n1
kept n1
say n1
hear c1 2
enter c1
inside a
END

SETTINGS
  votes     Required. The votes of each node, node 1 first: 1 to 16 numbers of 0 to 255
  read      Required. Votes that a reader needs. read + write must be greater than all votes
  write     Required. Votes that a writer needs. 2 * write must be greater than all votes
  problem   Required. 1: a reader enters while a writer waits. 2: it waits behind the writer
  clients   Required. The number of clients, 1 to 1024
  more      Up to seven more ballots, as [{ votes = [1, 1, 1], read = 1, write = 3 }]
  seed, lose, twice, late, wishes   For `rwvote run` alone. Every command checks them

LINES
  Line                 Prints          What it does
  begin cC read NAME   chose A         The client chooses an attempt. `write` for read, ` bP` for ballot P
  try nN, try cC       tried           The decision or the attempt is being written to the record
  kept nN, kept cC     kept            The write is complete
  sayto cC nN          sent K ..       The client sends its request, its softening or its release
  take nN K            changed, same   The node takes a message and decides
  say nN               sent K ..       The node sends its replies, each on a line
  hear cC K            counted, ..     The client hears a message
  enter cC             inside          A client with enough votes is inside
  leave cC             outside         The client stops asking, or leaves
  soften cC            softened        A writer that is inside goes on as a reader
  switch nN 1|2        changed, same   The node takes this problem
  fall nN, fall cC     down            The actor crashes
  rise nN old|new      up              It restarts with its old record, or with what it was writing
  inside NAME          inside ..       Query: who is inside
  waiting nN NAME      waiting ..      Query: who waits for the vote of the node
  holding nN NAME      holding ..      Query: who holds the vote of the node

  nN is a node, cC a client, K the number of a message, NAME 1 to 32 of a-z, 0-9 and -.
  All nodes and clients are up at first.
  `refused N` changes nothing, and the script goes on. `line L fault N` ends it, with L counted from
  1 after ---. `settings fault N` stands alone. `rwvote explain N` says what N means.

EXIT STATUS
  0   Nothing was refused.
  1   A line was refused or bad, or `fault N` is on standard error.
  2   The settings or the command-line arguments were refused.";

pub(crate) const AUDIT_HELP: &str = "\
Judges a journal: whether its events can happen one after another.

USAGE
  rwvote audit < FILE                   Judges the journal in FILE.
  rwvote audit --explain < FILE         Also says on standard error, in words, what is wrong and why.
  rwvote run --journal | rwvote audit   Judges the journal of a run.

Standard input has settings in TOML, a line ---, and one event a line. Paste this to try it:

rwvote audit <<'END'
votes = [1]
read = 1
write = 1
problem = 1
clients = 2
---
rise n1 old
rise c1 old
begin c1 read a
END

SETTINGS
  The same as for `rwvote script`.

LINES
  The events of `rwvote script`, without its three queries. All nodes and clients are down at first,
  and nothing is kept, so a journal begins with lines such as `rise n1 old`.
  Nothing is read after the first line that cannot follow.

OUTPUT
  sound N               All N lines can follow each other.
  unsound L refused N   The event of line L cannot happen then. L counts from 1 after ---.
  unsound L fault N     Line L is not an event.
  settings fault N      The settings are refused.
  `rwvote explain N` says what N means.

EXIT STATUS
  0   The journal is sound.
  1   The journal is unsound, or `fault N` is on standard error.
  2   The settings or the command-line arguments were refused.";

pub(crate) const BALLOT_HELP: &str = "\
Checks ballots: whether every two quorums have a node in common.

USAGE
  rwvote ballot < FILE             Checks the ballots of the settings in FILE.
  rwvote ballot --explain < FILE   Also says on standard error, in words, what is refused and why.

Standard input has settings in TOML and a line ---. Paste this to try it:

rwvote ballot <<'END'
votes = [2, 1, 1]
read = 2
write = 3
---
END

SETTINGS
  votes   Required. The votes of each node, node 1 first: 1 to 16 numbers of 0 to 255
  read    Required. Votes that a reader needs. read + write must be greater than all votes
  write   Required. Votes that a writer needs. 2 * write must be greater than all votes
  more    Up to seven more ballots, as [{ votes = [1, 1, 1], read = 1, write = 3 }]
  The other settings of `rwvote script` and `rwvote run` may be there, and are checked.

LINES
  What follows the line --- is ignored.

OUTPUT
  total T read R write W   One line for each ballot: all votes, and what readers and writers need.
  refused N                A ballot or the list of them is refused.
  settings fault N         Another setting is refused.
  `rwvote explain N` says what N means.

EXIT STATUS
  0   All ballots are good.
  1   A ballot was refused, or `fault N` is on standard error.
  2   The settings or the command-line arguments were refused.";

pub(crate) const RUN_HELP: &str = "\
Runs the whole service: one thread for each node and each client.

USAGE
  rwvote run < FILE             Runs the service by the settings in FILE.
  rwvote run --journal < FILE   Prints the settings and the journal instead, for `rwvote audit`.
  rwvote run --explain < FILE   Also says on standard error who entered what, and who did not and why.

Standard input has settings in TOML and a line ---. Paste this to try it:

rwvote run <<'END'
votes = [1, 1, 1]
read = 2
write = 2
problem = 1
clients = 4
wishes = ['c1 read a']
---
END

SETTINGS
  votes, read, write, problem, clients, more   The same as for `rwvote script`
  wishes   What clients do, in order: at most 4096 texts of the forms below. None by default
           'c1 read a'      Client 1 enters `a` as a reader, and leaves
           'c1 write a b2'  The same as a writer, by ballot 2
           'c1 soften a'    It enters as a writer, and goes on as a reader before it leaves
  lose     Of 1000 packets, how many are lost. 0 by default
  twice    Of 1000 packets, how many go twice. 0 by default
  late     Of 1000 packets, how many go after the next one. 0 by default
  seed     Of the random choice of these packets. 0 by default

LINES
  What follows the line --- is ignored.

OUTPUT
  entered E          How often clients entered a resource.
  events N           How many events there were.
  c2 fault N         Client 2 ended before its work was done. A node as in n1 fault N.
  settings fault N   The settings are refused.
  `rwvote explain N` says what N means. The result of a run may differ from the next.

EXIT STATUS
  0   Every client did its wishes.
  1   A node or client ended with a fault, or `fault N` is on standard error.
  2   The settings or the command-line arguments were refused.";

pub(crate) const EXPLAIN_HELP: &str = "\
Explains a number that a program printed: its meaning, cause and remedy.

USAGE
  rwvote explain 609   Explains `refused 609`, and so for the number of each refusal and fault.

EXIT STATUS
  0   The number was explained.
  1   `fault N` is on standard error.
  2   No fault has this number.";

pub(crate) const MERGE_HELP: &str = "\
Merges the journals that nodes and clients wrote alone into one journal of all.

USAGE
  rwvote merge DIR                        Merges the journals in a service's directory.
  rwvote merge JOURNAL.. < FILE           Prints the settings in FILE and the merged journal.
  rwvote merge --judge JOURNAL.. < FILE   Prints how many lines were merged.
  rwvote merge DIR | rwvote audit

Each JOURNAL is the file of one actor, with all its lives in order, or a service's directory, which
stands for the journals in it. If the first is a directory, its settings are read. Else standard
input has settings in TOML and a line ---. Paste this to try it:

cat >n1.journal <<'END'
life n1 01010000
END
rwvote merge n1.journal <<'END'
votes = [1]
read = 1
write = 1
problem = 1
clients = 2
---
END

SETTINGS
  The same as for `rwvote script`.

LINES OF A JOURNAL
  life nN HEX, life cC HEX   A life of the actor begins: its process found these bytes in the record
  take nN HEX, hear cC HEX   The actor reads the message with this frame
  any other event            As in `rwvote audit`
  HEX is hexadecimal digits. What follows the last line feed was cut off, and counts for nothing.

OUTPUT
  The settings, ---, and the merged journal. With --judge instead:
  merged N             The journals have a merge, of N lines.
  settings fault N     The settings are refused.
  If the journals have no merge, standard error says which line of each journal is left, and why:
  c1.journal line 5 enter c1: refused 609
  `rwvote explain N` says what N means.

EXIT STATUS
  0   The journals have a merge.
  1   They have none, or `fault N` is on standard error.
  2   The settings, a journal or the command-line arguments were refused.";

pub(crate) const RECORD_HELP: &str = "\
Prints what a record's file holds: each slot, the record, and whether the file would open.

USAGE
  rwvote record FILE   Reads FILE. It writes nothing to it, and takes no lock.

OUTPUT
  200704 bytes, 3 slots                               The size of the file, and its slots.
  slot 2: open, sequence 5, 9 bytes, has the record   One line for each slot.
  a client's record: last attempt 4                   The record. A node's entries have a line each.
  would open                                          Or `would not open: fault N` and why.

  A program that has the file open may change it while it is read.
  `rwvote explain N` says what N means.

EXIT STATUS
  0   The file would open as a record.
  1   It would not open, or `fault N` is on standard error.
  2   The file cannot be read, or the command-line arguments were refused.";
