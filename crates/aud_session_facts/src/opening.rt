//! Where a session was opened.
ghost use Rattle.std.specs.Prelude.{◌≡◌};
ghost use Rattle.aud_session_facts.specs.Opening.{first_opening_cursor, opening_cursor, opening_cursor_on};

use aud_node::Logs;

/// The cursor, at the `open` of the session with this pid, of the first node that has one; none where no node has.
pub(crate) fn opening_cursor(logs: &Logs<'_>, pid: &str) -> Option<u64>
    ensures { result ≡ opening_cursor logs.now pid.now }
{
    first_opening_cursor(logs, logs.nodes_of(pid), pid)
}

/// The same of the first of these nodes.
fn first_opening_cursor(logs: &Logs<'_>, nodes: &[usize], pid: &str) -> Option<u64>
    ensures { result ≡ first_opening_cursor logs.now nodes.now pid.now }
{
    for node in nodes {
        if let Some(cursor) = opening_cursor_on(logs, *node, pid) {
            return Some(cursor);
        }
    }
    None
}

/// The same of the node at this place.
fn opening_cursor_on(logs: &Logs<'_>, node: usize, pid: &str) -> Option<u64>
    ensures { result ≡ opening_cursor_on logs.now pid.now node }
{
    let Some(log) = logs.node(node) else {
        return None;
    };
    match log.turn_range(pid, 0) {
        Some(range) => log.cursor_after(range.start),
        None => None,
    }
}
