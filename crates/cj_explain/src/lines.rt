//! The lines that are told, in one table.

ghost use Rattle.std.specs.Prelude.{◌≢◌, All, Contains, IfNone, IfSome, IsTrue, List, MatchOption, map, ℕ};
ghost use Rattle.cj_explain.specs.Explanations.{HasLine, HasNoLine};

/// The status at which a line is told, what the line is about, and the line. What the line of a script is about is its
/// first word. The first row of a status is for all that no other row of it is about.
pub const LINES: [(u8, &str, &str); 42] = [
    (
        2,
        "",
        "usage: cjc pipe|script|log CONF, cjc serve CONF ADDR, or cjc gen CONF --seed N --count N (cjc --help)\n",
    ),
    (2, "not UTF-8", "a word of the command line is not UTF-8\n"),
    (
        4,
        "",
        "a frame is faulty: the last reply says how, and all requests before it have replies\n",
    ),
    (
        4,
        "cut",
        "the input ended inside a frame: all requests before it have replies\n",
    ),
    (
        7,
        "",
        "the configuration's file or the recovery log's failed: check both, and the disk\n",
    ),
    (
        7,
        "conf failed",
        "reading the configuration's file failed: check the disk\n",
    ),
    (
        7,
        "conf missing",
        "the configuration's file isn't there: check its path\n",
    ),
    (
        7,
        "conf denied",
        "the configuration's file may not be read: check its mode\n",
    ),
    (
        7,
        "conf not regular",
        "the configuration is no regular file: give a file, and no folder or pipe\n",
    ),
    (
        7,
        "log failed",
        "the recovery log's file, CONF.log, failed: check it, and the disk\n",
    ),
    (
        7,
        "log denied",
        "the recovery log, CONF.log, may not be opened: check its mode and its folder's\n",
    ),
    (
        7,
        "log used",
        "another program uses the recovery log, CONF.log: end that one first\n",
    ),
    (
        7,
        "log not regular",
        "the recovery log, CONF.log, is no regular file: move away what stands there\n",
    ),
    (
        7,
        "log full",
        "the recovery log, CONF.log, can't be written: the disk is full\n",
    ),
    (
        7,
        "dumps failed",
        "the dumps' file, CONF.dumps, failed: check it, and the disk\n",
    ),
    (
        7,
        "dumps denied",
        "the dumps' file, CONF.dumps, may not be opened: check its mode and its folder's\n",
    ),
    (
        7,
        "dumps used",
        "another program uses the dumps' file, CONF.dumps: end that one first\n",
    ),
    (
        7,
        "dumps not regular",
        "the dumps' file, CONF.dumps, is no regular file: move away what stands there\n",
    ),
    (
        7,
        "dumps full",
        "the dumps' file, CONF.dumps, can't be written: the disk is full\n",
    ),
    (
        8,
        "",
        "CONF.log is damaged, or isn't of this configuration: restore a copy, or move it away\n",
    ),
    (
        8,
        "listing",
        "CONF.log is damaged, or a program is adding to it: then list it again\n",
    ),
    (
        8,
        "dumps",
        "CONF.dumps is damaged, or isn't a file of dumps: restore a copy, or move it away\n",
    ),
    (
        9,
        "",
        "listening failed: check ADDR, and whether another program listens there\n",
    ),
    (
        10,
        "",
        "the line's first word is no move: docs/SCRIPT.md lists them\n",
    ),
    (10, "a long line", "the line has more than 65536 bytes\n"),
    (
        10,
        "a lost line",
        "the line is no move, or too long (docs/SCRIPT.md)\n",
    ),
    (10, "open", "wanted: open USER, 1 to 64 bytes, no space\n"),
    (10, "close", "wanted: close S, a session's number\n"),
    (10, "write", "wanted: write S SQL, SQL being no SELECT\n"),
    (10, "abort", "wanted: abort TX, a transaction's number\n"),
    (10, "apply", "wanted: apply B, a backend of CONF\n"),
    (10, "end", "wanted: end, alone\n"),
    (10, "read", "wanted: read S B SELECT, B being a backend\n"),
    (10, "arm", "wanted: arm B, a backend of CONF\n"),
    (10, "disable", "wanted: disable B, a backend of CONF\n"),
    (10, "replay", "wanted: replay B, a backend of CONF\n"),
    (10, "enable", "wanted: enable B, a backend of CONF\n"),
    (10, "mark", "wanted: mark NAME, 1 to 32 of a-z, 0-9, _\n"),
    (10, "dump", "wanted: dump B NAME, a backend and a name\n"),
    (10, "load", "wanted: load B NAME, a backend and a dump\n"),
    (10, "audit", "wanted: audit, alone\n"),
    (
        12,
        "",
        "CONF.log has the last session number there is: move it away and start again\n",
    ),
];

fn is_about(about: &str, cause: Option<&str>) -> bool
    ensures { IfNone cause.entry (IsTrue result) }
{
    match cause {
        Some(cause) => about == cause,
        None => true,
    }
}

/// Returns the first line of the rows that has this status, and is about the cause if one is given.
fn found_in(
    rows: &[(u8, &'static str, &'static str)],
    status: u8,
    cause: Option<&str>,
) -> Option<&'static str>
    ensures some { IfSome result (λ line. Contains {X = ℕ × List ℕ} (map (λ row. (row.0, row.2.now)) rows.now) (status, line.now)) }
    ensures none { IfNone cause.entry (IfNone result (All (λ other. other ≢ status) (map (λ row. row.0) rows.now))) }
{
    for row in rows {
        if row.0 == status && is_about(row.1, cause) {
            return Some(row.2);
        }
    }
    None
}

/// Returns the line that is told at this status about this cause, or `None` if the status has no row.
#[tactic(auto, using(crate::proofs::Rows::in_both))]
pub(crate) fn line_of(status: u8, cause: &str) -> Option<&'static str>
    ensures { MatchOption result (HasNoLine status) (λ line. HasLine status line.now) }
{
    match found_in(&LINES, status, Some(cause)) {
        Some(line) => Some(line),
        None => found_in(&LINES, status, None),
    }
}
