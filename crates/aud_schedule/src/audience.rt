//! Sessions, and whom an entry is addressed to.

/// The rooms that sessions join: a set of them is a number, of whose bits the first is the first room's.
pub const ROOMS: [&str; 4] = ["lobby", "news", "trade", "games"];

/// Where a session is.
#[derive(Clone, Copy, Drop)]
pub enum Place {
    /// Connected to this node, counted from 1.
    On(usize),
    /// Cut off where its node's cursor was this.
    Away(usize),
}

/// A client's session.
#[derive(Clone, Copy, Drop)]
pub struct Session {
    /// Its number, counted from 1.
    pub number: u32,
    /// The rooms that it joined.
    pub rooms: u8,
    /// Whether it received an entry.
    pub has_offset: bool,
    pub place: Place,
}

/// Whom an entry is addressed to.
#[derive(Clone, Copy, Drop)]
pub struct Audience {
    /// These rooms, or all sessions where there is none and no one session.
    pub rooms: u8,
    /// The number of one session, or 0.
    pub session: u32,
    /// But for who is in these rooms.
    pub except_rooms: u8,
    /// And but for the session with this number, or 0.
    pub except_session: u32,
}

/// All sessions.
pub const ALL: Audience = Audience {
    rooms: 0,
    session: 0,
    except_rooms: 0,
    except_session: 0,
};

impl Audience {
    /// Whether a session is among them.
    pub fn has(&self, session: &Session) -> bool {
        let is_for_all = self.rooms == 0 && self.session == 0;
        let is_meant = is_for_all
            || self.rooms & session.rooms != 0
            || self.session == session.number;
        let is_excepted = self.except_rooms & session.rooms != 0
            || self.except_session == session.number;
        is_meant && !is_excepted
    }
}
