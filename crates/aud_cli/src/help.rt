//! What the help says of the commands, and why arguments are refused.

pub(crate) const ABOUT: &str = "Audits what the sessions of a Socket.IO cluster received";

pub(crate) const STATUSES: &str = "\
A bundle is the logs of the stream, of the nodes and of the clients, a record a line. Its files are
read one after the other, as one bundle; without any, and for -, it is read from standard input. For
verify, the lines that begin with { are certificates. docs/FORMAT.md describes both, and the help of a
command shows what it writes.

Exit status:
  0  every session received what was due to it, or every certificate is ok
  1  some session did not, or some certificate is bad
  2  a line of the bundle is refused; the output names it
  3  a read or a write failed, a thread could not be started, or there was no memory
  4  these words are not understood";

pub(crate) const AUDIT_ABOUT: &str = "Reads a bundle and writes a verdict for each session";

pub(crate) const AUDIT_LINES: &str = "\
Each session has a line, and the last line counts them:
  yes <pid> got=<events received> tail=<due events not received yet> turns=<connections>
  no <pid> <fault>
  sessions=<n> yes=<n> no=<n>";

pub(crate) const EXPLAIN_ABOUT: &str =
    "Reads a bundle and tells of each session that is answered no why";

pub(crate) const EXPLAIN_LINES: &str = "\
With --pid these sessions are shown, also those that are answered yes. The next word after --pid is
the session, also where it begins with a dash.

Of a part, part-0001.jsonl, --lines part-0001.lines names the lines of the bundle that was split.

With --record no session is explained: the records of a tap with these numbers are shown, each with its
line. Numbers are those of `sioaudit order` and of certificates: they count from 0, without the tap's
header. A file whose name is a number can be written ./7, or after --.

The classes of faults:
  delivery   EXTRA, DOUBLED, SWAPPED, LOST, CONTENT, WINDOW: the client did not get what was due;
             with --whole also TAIL: it did not get the last of that
  packets    FRAME, ORPHAN: a record is no packet, or nobody knows the session of an event
  recording  NOLOG, CHAIN, ORDER, CLIENT, NAMES: the taps contradict each other, or lack something

Exit status:
  0  nothing of what --fail-on lists was found
  1  some of it was; `nothing` is found where no session, or no entry that is sent again after a
     recovery, was recorded
  2  a line of the bundle is refused; the output names it
  3  a read or a write failed, a thread could not be started, or there was no memory
  4  these words are not understood, the bundle has no such session or record, or the file of --lines
     is not of this part";

pub(crate) const PROVE_ABOUT: &str =
    "Reads a bundle and writes the certificate of each session that received what was due to it";

pub(crate) const PROVE_LINES: &str = "\
A certificate is a line of JSON: the session and its client's tap, its turns on the nodes, and
the rooms that it held at which positions. Put after the bundle's lines, `verify` accepts it.
The sessions that audit answers no have no line, and the exit status is then 1.";

pub(crate) const VERIFY_ABOUT: &str =
    "Reads a bundle and certificates, and writes an answer on each certificate";

pub(crate) const VERIFY_LINES: &str = "\
A line that begins with { is a certificate. Each has a line, and the last line counts them:
  ok <line> <pid> got=<events received> tail=<due events not received yet> turns=<connections>
  bad <line> <code> <name>
  certs=<n> ok=<n> bad=<n>";

pub(crate) const ORDER_ABOUT: &str =
    "Reads a bundle and writes one run of its logs, or the records that block every run";

pub(crate) const ORDER_LINES: &str = "\
A run takes the records of the stream and of the nodes one after another, each where the cluster
allows it. Records count from 0 in their tap, its header not counted:
  <tap> <record>            for each step of a run
  steps=<n>
  blocked <tap> <record>    where there is no run, for the next record of each log that isn't finished
  blocked=<n>               the exit status is then 1";

pub(crate) const UPGRADE_ABOUT: &str = "Reads a bundle and writes it in version 2 of the format";

pub(crate) const UPGRADE_LINES: &str = "\
What a node took one by one it takes by one record, and no verdict changes. The numbers of records do:
certificates of the old bundle don't fit the new one.";

pub(crate) const SPLIT_ABOUT: &str =
    "Cuts a bundle into parts, each of which can be audited by itself";

pub(crate) const SPLIT_LINES: &str = "\
Each part is a bundle: part-0001.jsonl and so on in the folder. part-0001.lines beside it says from
which lines of the whole its lines come, for `sioaudit explain --lines`, and the file `sessions` lists
the sessions of each. Audit each part, on whichever machine; `sioaudit merge` then writes the report on
the whole bundle. Each part has a line, and the last line counts them:
  part-0001.jsonl sessions=<n> clients=<n> bytes=<n>
  parts=<n> sessions=<n>

Sessions that one client's log names stay together. A part has no more taps than a bundle may have;
the whole may have any number of clients and of sessions. The files are read more than once.

Exit status:
  0  the parts are written
  2  a line of the bundle is refused; the output names it, and no part is written
  3  a read or a write failed, or there was no memory; nothing is left in the folder
  4  these words are not understood, the folder has a split already, or no such parts can be made";

pub(crate) const MERGE_ABOUT: &str = "Writes the report on a bundle from the reports on its parts";

pub(crate) const MERGE_LINES: &str = "\
The reports are those that `sioaudit audit` wrote on the parts, all with --whole or all without, a
file each, in any order. Which part a report is of is known by its sessions. The output is what
`sioaudit audit` writes on the whole bundle, and so is the exit status, except that it is 2 where a
report is missing, stands twice, or is of no part of this split; nothing is written then.";

pub(crate) const SIMULATE_ABOUT: &str = "Writes the bundle of a simulated cluster";

pub(crate) const SIMULATE_LINES: &str = "`sioaudit simulate --help` has its options.";

pub(crate) const NOT_UNDERSTOOD: &str = "these words are not understood";

/// Why a size of parts is refused.
pub(crate) const BAD_SIZE: &str =
    "a part's size is a whole number of bytes, or of K, M or G, as in 512M";

/// Why `TAIL` is refused.
pub(crate) const TAIL_ALONE: &str = "TAIL is named without --whole, which alone looks for it";

/// Why records are refused.
pub(crate) const RECORD_NUMBERS: &str =
    "--record has the name of a tap, and after it the numbers of records, as in --record a 3 4";

/// Why `-` is refused as a file of `split`.
pub(crate) const STDIN_TWICE: &str =
    "the files are read more than once, so none can be standard input";
