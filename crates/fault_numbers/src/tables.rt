// The words of all numbers, in ascending order.

use crate::FaultText;

/// 101 to 199: frames.
pub(crate) const FRAMES: [FaultText; 11] = [
    FaultText {
        number: 101,
        meaning: "the frame is too short",
        cause: "A field of the frame is cut off.",
        remedy: "Pass a whole frame: 15 bytes, or 17 and the name for a request, a grant and busy.",
    },
    FaultText {
        number: 102,
        meaning: "unknown version of a frame",
        cause: "The first byte is neither 1 nor 2.",
        remedy: "Use version 1, and version 2 for the kinds 8 and 9.",
    },
    FaultText {
        number: 103,
        meaning: "unknown kind of message",
        cause: "Version 1 has the kinds 1 to 7, and version 2 has 8 and 9.",
        remedy: "Check that both sides use the same format of frames.",
    },
    FaultText {
        number: 104,
        meaning: "the node of a frame is out of range",
        cause: "The node is not 1 to 16.",
        remedy: "Use nodes 1 to 16.",
    },
    FaultText {
        number: 105,
        meaning: "the client of a frame is out of range",
        cause: "The client is not 1 to 1,024.",
        remedy: "Use clients 1 to 1,024.",
    },
    FaultText {
        number: 106,
        meaning: "the attempt of a frame is out of range",
        cause: "The attempt is not 1 to 1,000,000,000,000.",
        remedy: "Use attempts that a client has chosen.",
    },
    FaultText {
        number: 107,
        meaning: "the mode of a frame is neither read nor write",
        cause: "The mode byte is neither 0 for read nor 1 for write.",
        remedy: "Write 0 or 1.",
    },
    FaultText {
        number: 108,
        meaning: "a name of a wrong length",
        cause: "The length byte is not 1 to 32.",
        remedy: "Use names of 1 to 32 bytes.",
    },
    FaultText {
        number: 109,
        meaning: "a name with a wrong byte",
        cause: "A byte of the name is not one of a-z, 0-9 and -.",
        remedy: "Use names of lower-case letters, digits and dashes.",
    },
    FaultText {
        number: 110,
        meaning: "bytes after the frame",
        cause: "The frame is complete, and more bytes follow.",
        remedy: "Pass one frame at a time.",
    },
    FaultText {
        number: 111,
        meaning: "out of memory for a frame",
        cause: "The program ran out of memory while it read or wrote a frame.",
        remedy: "Give the program more memory, and read or write the frame again.",
    },
];

/// 201 to 299: ballots.
pub(crate) const BALLOTS: [FaultText; 8] = [
    FaultText {
        number: 201,
        meaning: "no node",
        cause: "The list `votes` is empty.",
        remedy: "Give the votes of each node, as in votes = [1, 1, 1].",
    },
    FaultText {
        number: 202,
        meaning: "more than 16 nodes",
        cause: "The list `votes` has more than 16 numbers.",
        remedy: "Use at most 16 nodes.",
    },
    FaultText {
        number: 203,
        meaning: "read and write must not be greater than the total",
        cause: "A reader or a writer needs more votes than all nodes have. It could never enter.",
        remedy: "Lower read or write, or give a node more votes.",
    },
    FaultText {
        number: 204,
        meaning: "read + write must be greater than the total",
        cause: "A reader and a writer could both have enough votes, from different nodes.",
        remedy: "Raise read or write.",
    },
    FaultText {
        number: 205,
        meaning: "2 * write must be greater than the total",
        cause: "Two writers could both have enough votes, from different nodes.",
        remedy: "Raise write.",
    },
    FaultText {
        number: 206,
        meaning: "the quorums of two ballots must intersect",
        cause: "Under two ballots a read and a write, or two writes, could have enough votes without a common node.",
        remedy: "Raise read or write of one of them. For each pair, r1 + w2, w1 + r2 and w1 + w2 must be greater than the sum of each node's larger votes.",
    },
    FaultText {
        number: 207,
        meaning: "no ballot",
        cause: "The list of ballots is empty.",
        remedy: "Pass at least one ballot.",
    },
    FaultText {
        number: 208,
        meaning: "more than 8 ballots",
        cause: "The list `more` has more than seven tables.",
        remedy: "Use at most eight ballots.",
    },
];

/// 301 to 399: records: keeping one, a node's, a client's.
pub(crate) const RECORDS: [FaultText; 19] = [
    FaultText {
        number: 301,
        meaning: "the device of the record failed",
        cause: "A read, a write or a sync of the device failed.",
        remedy: "Check the device, and reopen the record.",
    },
    FaultText {
        number: 302,
        meaning: "the record is stuck until it is reopened",
        cause: "An earlier change failed, so what the device has is not known.",
        remedy: "Reopen the record. It then has its old or its new bytes.",
    },
    FaultText {
        number: 303,
        meaning: "the record is too long",
        cause: "A record has at most 60,000 bytes.",
        remedy: "Keep fewer bytes.",
    },
    FaultText {
        number: 304,
        meaning: "out of memory for a record",
        cause: "The program ran out of memory while it kept or reopened a record.",
        remedy: "Give the program more memory, and try again.",
    },
    FaultText {
        number: 305,
        meaning: "the record's changes are used up",
        cause: "A record can be changed 1,000,000,000,000 times.",
        remedy: "Move the bytes to a new record.",
    },
    FaultText {
        number: 311,
        meaning: "the node's record is too short",
        cause: "A field of the record is cut off.",
        remedy: "Restore the record from the device that kept it.",
    },
    FaultText {
        number: 312,
        meaning: "unknown version of a node's record",
        cause: "The first byte is not 1.",
        remedy: "Check that the bytes are a node's record of this program.",
    },
    FaultText {
        number: 313,
        meaning: "the problem of a node's record is neither 1 nor 2",
        cause: "The second byte is neither 1 for reader-first nor 2 for writer-first.",
        remedy: "Check that the bytes are a node's record of this program.",
    },
    FaultText {
        number: 314,
        meaning: "an entry of a node's record is out of range",
        cause: "A client, a floor, a state, an attempt, a mode or a name has a value that it cannot have.",
        remedy: "Check that the bytes are a node's record of this program.",
    },
    FaultText {
        number: 315,
        meaning: "two entries of one client",
        cause: "An earlier entry of the record is of the same client.",
        remedy: "Check that the bytes are a node's record of this program.",
    },
    FaultText {
        number: 316,
        meaning: "an attempt is not its floor plus one",
        cause: "The attempt of an entry does not follow the highest finished attempt of its client.",
        remedy: "Check that the bytes are a node's record of this program.",
    },
    FaultText {
        number: 317,
        meaning: "a writer holds a resource beside others",
        cause: "In the record a writer and another client hold the same resource.",
        remedy: "Check that the bytes are a node's record of this program.",
    },
    FaultText {
        number: 318,
        meaning: "a request waits without a reason",
        cause: "In the record a client waits for a resource that it could have.",
        remedy: "Check that the bytes are a node's record of this program.",
    },
    FaultText {
        number: 319,
        meaning: "bytes after the node's record",
        cause: "The record is complete, and more bytes follow.",
        remedy: "Pass one record at a time.",
    },
    FaultText {
        number: 320,
        meaning: "out of memory for a node's record",
        cause: "The program ran out of memory while it read or wrote the record.",
        remedy: "Give the program more memory, and try again.",
    },
    FaultText {
        number: 321,
        meaning: "the client's record is too short",
        cause: "The record has fewer than 9 bytes.",
        remedy: "Restore the record from the device that kept it.",
    },
    FaultText {
        number: 322,
        meaning: "unknown version of a client's record",
        cause: "The first byte is not 1.",
        remedy: "Check that the bytes are a client's record of this program.",
    },
    FaultText {
        number: 323,
        meaning: "the attempt of a client's record is out of range",
        cause: "The attempt is greater than 1,000,000,000,000.",
        remedy: "Check that the bytes are a client's record of this program.",
    },
    FaultText {
        number: 324,
        meaning: "bytes after the client's record",
        cause: "The record has more than 9 bytes.",
        remedy: "Pass one record at a time.",
    },
];

/// 401 to 499: disks.
pub(crate) const DISKS: [FaultText; 6] = [
    FaultText {
        number: 401,
        meaning: "the disk is too small",
        cause: "Two slots for a record of 60,000 bytes need more room.",
        remedy: "Use a larger disk or file.",
    },
    FaultText {
        number: 402,
        meaning: "the device of the disk failed",
        cause: "A read, a write or a sync of the device failed.",
        remedy: "Check the device, and open the disk again.",
    },
    FaultText {
        number: 403,
        meaning: "the disk is not formatted",
        cause: "Neither slot of the disk is valid.",
        remedy: "Format the disk. If it was formatted before, its record is lost.",
    },
    FaultText {
        number: 404,
        meaning: "the record is too long for the disk",
        cause: "A record has at most 60,000 bytes.",
        remedy: "Keep fewer bytes.",
    },
    FaultText {
        number: 405,
        meaning: "the disk's changes are used up",
        cause: "A disk can be changed 1,000,000,000,000 times.",
        remedy: "Move the record to another disk.",
    },
    FaultText {
        number: 406,
        meaning: "out of memory for a disk",
        cause: "The program ran out of memory while it formatted, opened or changed a disk.",
        remedy: "Give the program more memory, and try again.",
    },
];

/// 501 to 599: nodes that restart.
pub(crate) const RESTARTS: [FaultText; 2] = [
    FaultText {
        number: 501,
        meaning: "the node's record cannot be read",
        cause: "The bytes that the node kept are not a node's record. The numbers 311 to 320 say why.",
        remedy: "Restore the record from the device that kept it.",
    },
    FaultText {
        number: 503,
        meaning: "out of memory for a node",
        cause: "The node ran out of memory while it restarted or decided.",
        remedy: "Give the program more memory, and restart the node.",
    },
];

/// 601 to 699: events, and opening from records.
pub(crate) const EVENTS: [FaultText; 16] = [
    FaultText {
        number: 601,
        meaning: "no such node or client",
        cause: "The line names a node or a client that these settings do not have.",
        remedy: "Use a node of `votes` and a client up to `clients`, or change the settings.",
    },
    FaultText {
        number: 602,
        meaning: "the actor is down",
        cause: "A node or a client that crashed does nothing until it restarts. In a journal all begin so.",
        remedy: "Restart it first, as in rise c1 old.",
    },
    FaultText {
        number: 603,
        meaning: "the actor is up",
        cause: "Only a node or a client that is down restarts. In a script all begin up.",
        remedy: "Remove the line, or crash the actor first, as in fall c1.",
    },
    FaultText {
        number: 604,
        meaning: "wrong phase",
        cause: "The actor must do something else first, such as say after take, or leave before begin.",
        remedy: "See what the actor does by --explain, and add the missing lines.",
    },
    FaultText {
        number: 605,
        meaning: "not kept yet",
        cause: "The actor's decision or attempt is not in its record yet.",
        remedy: "Keep it first, as in try c1 and kept c1.",
    },
    FaultText {
        number: 606,
        meaning: "nothing to say",
        cause: "The node has taken no message since it last replied, or the client has made no attempt.",
        remedy: "Remove the line, or take a message or begin an attempt first.",
    },
    FaultText {
        number: 607,
        meaning: "no such message",
        cause: "No message with this number was sent yet. Numbers count from 1, in the order of sending.",
        remedy: "Use the number of a line that was printed as sent K.",
    },
    FaultText {
        number: 608,
        meaning: "the message is for another actor",
        cause: "The line names a message that was sent to another node or client.",
        remedy: "Use the number of a message to this actor, and take for nodes, hear for clients.",
    },
    FaultText {
        number: 609,
        meaning: "not enough votes",
        cause: "The client holds fewer votes than its ballot asks for its mode.",
        remedy: "Let it hear more grants: ask more nodes by sayto, take, try, kept, say and hear.",
    },
    FaultText {
        number: 610,
        meaning: "no attempt left",
        cause: "A client can make 1,000,000,000,000 attempts.",
        remedy: "Use another client.",
    },
    FaultText {
        number: 611,
        meaning: "no write was in progress",
        cause: "The actor writes nothing to its record, so nothing can be kept, and nothing new can be found by a restart.",
        remedy: "For kept, add the line try first. For a restart, use rise with old.",
    },
    FaultText {
        number: 612,
        meaning: "the list of messages is full",
        cause: "A service sends at most 1,048,576 messages.",
        remedy: "Start a new service from the records of this one.",
    },
    FaultText {
        number: 613,
        meaning: "out of memory for an event",
        cause: "The program ran out of memory while it carried out the event. Nothing has changed.",
        remedy: "Give the program more memory.",
    },
    FaultText {
        number: 614,
        meaning: "no ballot at this place",
        cause: "The line ends with the place of a ballot that these settings do not have.",
        remedy: "Add the ballot to `more`, or leave the place out to use the first one.",
    },
    FaultText {
        number: 621,
        meaning: "an entry is above the attempt that its client has kept",
        cause: "A node's record and a client's record are not of the same service, or the client's is older.",
        remedy: "Open the service with records that were kept together.",
    },
    FaultText {
        number: 622,
        meaning: "a record cannot be read",
        cause: "The bytes of the actor are not a record. The numbers 311 to 324 say why.",
        remedy: "Restore the record from the device that kept it.",
    },
];

/// 701 to 799: beginning an attempt.
pub(crate) const ATTEMPTS: [FaultText; 3] = [
    FaultText {
        number: 701,
        meaning: "an attempt is under way",
        cause: "A client makes one attempt at a time.",
        remedy: "Leave first, and then begin the next attempt.",
    },
    FaultText {
        number: 702,
        meaning: "no attempt is left",
        cause: "A client can make 1,000,000,000,000 attempts.",
        remedy: "Use another client.",
    },
    FaultText {
        number: 703,
        meaning: "no ballot at this place for an attempt",
        cause: "The list of ballots is shorter.",
        remedy: "Pass a place from 1 to the number of ballots.",
    },
];

/// 801 to 899: lines and wishes, the shared log, and audits.
pub(crate) const LINES: [FaultText; 14] = [
    FaultText {
        number: 801,
        meaning: "unknown word",
        cause: "The line begins with an unknown command, or has a word where read, write, old or new is expected. A blank line or a comment after --- counts too.",
        remedy: "Check the spelling against rwvote script --help. All words are lower case.",
    },
    FaultText {
        number: 802,
        meaning: "not a node or client",
        cause: "The word is not n1 to n16 or c1 to c1024, or it is one where the other is expected. Leading zeros are wrong too.",
        remedy: "Write nodes as n1 and clients as c1.",
    },
    FaultText {
        number: 803,
        meaning: "not a number, place or problem",
        cause: "A message is 1 to 1048576, a place is b2 to b8, and a problem is 1 or 2. Leading zeros are wrong too.",
        remedy: "Use a number of this range. The first ballot is used if the place is left out.",
    },
    FaultText {
        number: 804,
        meaning: "not a name",
        cause: "A resource has a name of 1 to 32 of a-z, 0-9 and -.",
        remedy: "Use lower-case letters, digits and dashes.",
    },
    FaultText {
        number: 805,
        meaning: "wrong number of words, or a line that is too long",
        cause: "Words are missing or left over, or the line has more than 128 bytes. Words are separated by one space.",
        remedy: "Check the words of the line against rwvote script --help.",
    },
    FaultText {
        number: 811,
        meaning: "the event cannot happen now",
        cause: "The log refuses an event that cannot follow what it has. The numbers 601 to 614 say why.",
        remedy: "Report this: an actor of this library logs only events that can happen.",
    },
    FaultText {
        number: 812,
        meaning: "the log is full",
        cause: "The log or the list of messages is full, or the log's writer failed.",
        remedy: "Start a new service from the records of this one.",
    },
    FaultText {
        number: 813,
        meaning: "out of memory for the log",
        cause: "The program ran out of memory while it logged an event. Nothing has changed.",
        remedy: "Give the program more memory.",
    },
    FaultText {
        number: 814,
        meaning: "the event is another actor's",
        cause: "A handle of the log records the events of one actor.",
        remedy: "Use the handle of the event's own actor.",
    },
    FaultText {
        number: 815,
        meaning: "the handle is of another log",
        cause: "The handle was made by another log.",
        remedy: "Use the handle with the log that made it.",
    },
    FaultText {
        number: 816,
        meaning: "reading the journal failed",
        cause: "Standard input failed after the line ---.",
        remedy: "Check where the journal comes from, and run the command again.",
    },
    FaultText {
        number: 817,
        meaning: "writing failed",
        cause: "Standard output failed while a verdict, a picture or a journal was written.",
        remedy: "Check where the output goes, such as a full disk or a closed pipe.",
    },
    FaultText {
        number: 818,
        meaning: "out of memory for an audit",
        cause: "The program ran out of memory while it judged, drew or wrote a journal.",
        remedy: "Give the program more memory.",
    },
    FaultText {
        number: 819,
        meaning: "too many lines",
        cause: "A journal has at most 4,194,304 lines.",
        remedy: "Audit a shorter journal.",
    },
];

/// 901 to 939: links, actors that ended early, settings, and the program.
pub(crate) const RUNS: [FaultText; 17] = [
    FaultText {
        number: 901,
        meaning: "lose, twice and late are more than 1000 together",
        cause: "Of a thousand packets more than a thousand would be lost, go twice or go late.",
        remedy: "Lower lose, twice or late until they are at most 1000 together.",
    },
    FaultText {
        number: 902,
        meaning: "the link is closed",
        cause: "Nothing can come over the link, since the other ends are gone or the run is over.",
        remedy: "End the actor, or open a new link.",
    },
    FaultText {
        number: 903,
        meaning: "out of memory for a link",
        cause: "The program ran out of memory while it sent or received.",
        remedy: "Give the program more memory.",
    },
    FaultText {
        number: 911,
        meaning: "the record failed to reopen three times in a row",
        cause: "The device of the actor's record keeps failing.",
        remedy: "Check the device, then start the actor again from the same record. The service goes on without it while enough nodes are left.",
    },
    FaultText {
        number: 912,
        meaning: "cannot get enough votes",
        cause: "The nodes that are left or that answer do not have enough votes, or every thread of a run waits and no message is in flight.",
        remedy: "Check which nodes ended with 911, 914 or 915, and which can be reached. In a run, see whether another client keeps the votes.",
    },
    FaultText {
        number: 913,
        meaning: "gave up after its last retry",
        cause: "The client was told to send again as often as it may be, in a run 1000 times in a wish.",
        remedy: "Lower lose and late, or begin the attempt again.",
    },
    FaultText {
        number: 914,
        meaning: "out of memory or threads",
        cause: "The program ran out of memory, or could not start a thread.",
        remedy: "Give the program more memory or threads, or use fewer clients.",
    },
    FaultText {
        number: 915,
        meaning: "the log or the list of messages is full",
        cause: "The log of one process takes at most 4,194,304 events and 1,048,576 messages. The journal of a node or client by itself cannot be written.",
        remedy: "In one process, start a new service from the records of this one. For a node or client by itself, make room for its journal and start it again.",
    },
    FaultText {
        number: 916,
        meaning: "the record's changes or the client's attempts are used up",
        cause: "A record can be changed, and a client can try, 1,000,000,000,000 times.",
        remedy: "Use another client. If the record of a node is used up, make a new service, and never a new record for this node.",
    },
    FaultText {
        number: 921,
        meaning: "not a TOML document",
        cause: "The text above the line --- does not follow the rules of TOML, or a number needs more than 64 bits.",
        remedy: "Mend the line that --explain names. Texts need quotes, and lists need brackets.",
    },
    FaultText {
        number: 922,
        meaning: "a value is missing or out of range",
        cause: "A required key is missing, or a value has the wrong type or range. A table of `more` with other keys counts too.",
        remedy: "Mend the key that --explain names. rwvote script --help lists all keys.",
    },
    FaultText {
        number: 923,
        meaning: "unknown key",
        cause: "The settings have a key that is not known.",
        remedy: "Check the spelling. rwvote script --help lists all keys.",
    },
    FaultText {
        number: 924,
        meaning: "no line --- within the first 65536 bytes",
        cause: "The line that ends the settings is missing or too far down, or lines end with a carriage return.",
        remedy: "Add the line --- after the settings. End lines with a line feed alone.",
    },
    FaultText {
        number: 925,
        meaning: "out of memory for settings",
        cause: "The program ran out of memory while it read the settings.",
        remedy: "Give the program more memory.",
    },
    FaultText {
        number: 931,
        meaning: "reading standard input failed",
        cause: "Standard input cannot be read, such as a folder.",
        remedy: "Check where the input comes from.",
    },
    FaultText {
        number: 932,
        meaning: "writing standard output failed",
        cause: "Standard output cannot be written, such as a full disk or a closed pipe.",
        remedy: "Check where the output goes.",
    },
    FaultText {
        number: 933,
        meaning: "out of memory",
        cause: "The program ran out of memory, or could not start a thread.",
        remedy: "Give the program more memory, or use fewer clients.",
    },
];

/// 940 to 999: files of records, merging journals, and services in a directory.
pub(crate) const FILES: [FaultText; 26] = [
    FaultText {
        number: 941,
        meaning: "another process holds the file",
        cause: "Another process has the file open as a record.",
        remedy: "End that process, or use another file.",
    },
    FaultText {
        number: 942,
        meaning: "no such file",
        cause: "There is no file of this name.",
        remedy: "Check the name, or make the file first. The record of a node or client is never made anew, since an actor without its record breaks the premise of the exclusion theorem. Restore the file itself, never an older copy.",
    },
    FaultText {
        number: 943,
        meaning: "the file has the wrong size for a record",
        cause: "The file of a record has one fixed size.",
        remedy: "Check that the file was made for a record, and was copied whole.",
    },
    FaultText {
        number: 944,
        meaning: "the file holds no record",
        cause: "No slot of the file is valid.",
        remedy: "Restore the file itself, never an older copy of a node's or client's record, or make a new one under another name.",
    },
    FaultText {
        number: 945,
        meaning: "the file cannot be opened, locked or read",
        cause: "The program may not read the file, it is not a regular file, or its device failed.",
        remedy: "Check the file, its permissions and its device.",
    },
    FaultText {
        number: 946,
        meaning: "the file cannot be written",
        cause: "The file, its name or its folder cannot be written or synced.",
        remedy: "Check permissions, and that the device is not full.",
    },
    FaultText {
        number: 947,
        meaning: "the file exists already",
        cause: "A new record is never made over a file that is there.",
        remedy: "Open the file, or use another name.",
    },
    FaultText {
        number: 951,
        meaning: "the journal has no line",
        cause: "The file is empty, so it is no actor's journal.",
        remedy: "Leave the file out, or name the journal of an actor.",
    },
    FaultText {
        number: 952,
        meaning: "another journal is of the same actor",
        cause: "Two files begin with the same actor.",
        remedy: "Name each journal once. Put all lives of an actor into one file, in order.",
    },
    FaultText {
        number: 953,
        meaning: "not a line of an actor's own journal",
        cause: "The line is not an event, a life, or a take or hear with hexadecimal digits, and it does not end with a life. Or it has more than 120064 bytes.",
        remedy: "Mend the line. A life right after a line that was cut off is read, and needs no mending.",
    },
    FaultText {
        number: 954,
        meaning: "a line of another actor",
        cause: "A file is the journal of one actor, which its first line names.",
        remedy: "Put the line into the journal of its actor.",
    },
    FaultText {
        number: 955,
        meaning: "the journals say too many messages",
        cause: "A merged journal has numbers for 1,048,576 messages. With --judge there is no limit.",
        remedy: "Use --judge, or merge beginnings of the journals that say fewer messages.",
    },
    FaultText {
        number: 956,
        meaning: "the journal cannot be read",
        cause: "There is no such file, it is a folder, or the program may not read it.",
        remedy: "Check the name, the permissions and the device.",
    },
    FaultText {
        number: 957,
        meaning: "the merged journal cannot be written",
        cause: "Standard output cannot be written, such as a full disk or a closed pipe.",
        remedy: "Check where the output goes.",
    },
    FaultText {
        number: 958,
        meaning: "out of memory for journals",
        cause: "The program ran out of memory while it merged journals.",
        remedy: "Give the program more memory.",
    },
    FaultText {
        number: 959,
        meaning: "the journals have too many lines",
        cause: "A merge takes at most 1,000,000,000,000 lines.",
        remedy: "Merge beginnings of the journals.",
    },
    FaultText {
        number: 961,
        meaning: "the service's directory is not empty",
        cause: "rwvote init makes a service only in a directory that is new or empty.",
        remedy: "Name another directory. Delete no record of a service that is in use.",
    },
    FaultText {
        number: 962,
        meaning: "the service's directory cannot be written",
        cause: "The directory or a file in it cannot be made, written or synced.",
        remedy: "Check permissions, and that the device is not full. Then empty the directory, and make the service again.",
    },
    FaultText {
        number: 963,
        meaning: "not a service's directory: it has no settings",
        cause: "There is no such directory, or it has no file settings.toml that can be read.",
        remedy: "Check the name, or make the directory by rwvote init.",
    },
    FaultText {
        number: 964,
        meaning: "the service's secret is missing, unreadable or too short",
        cause: "The secret cannot be read, or it has fewer than 32 bytes.",
        remedy: "Check the file and its permissions. All machines of a service have the same secret.",
    },
    FaultText {
        number: 965,
        meaning: "the service has no such actor",
        cause: "The settings have no node or client of this number.",
        remedy: "Use a node of `votes` and a client up to `clients`.",
    },
    FaultText {
        number: 966,
        meaning: "each client is in use by a process",
        cause: "A process holds the record of each client in the directory.",
        remedy: "End one of these processes, or make a service with more clients.",
    },
    FaultText {
        number: 967,
        meaning: "the actor's inbox is missing or cannot be opened",
        cause: "The file of the inbox is missing, or the program may not read or write it.",
        remedy: "Check the permissions. If the file is missing, make an empty one. Lines that were in it count as lost messages.",
    },
    FaultText {
        number: 968,
        meaning: "the actor's journal cannot be opened",
        cause: "The file of the journal cannot be made or written.",
        remedy: "Check permissions, and that the device is not full, or run the actor with --no-journal.",
    },
    FaultText {
        number: 969,
        meaning: "the file of commands or answers cannot be opened",
        cause: "There is no such file, it is a folder, or the program may not open it.",
        remedy: "Check the names after --commands and --answers, and the permissions.",
    },
    FaultText {
        number: 970,
        meaning: "the node runs, and did not take the problem in time",
        cause: "The node is stopped or ended just now, or it runs with --pipes and reads no inbox, or its record cannot be written.",
        remedy: "Look at the node by rwvote status, and switch again. If it runs with --pipes, carry the line of rwvote switch --pipes to it. The node may still take the problem late.",
    },
];
