//! The words of a line: its sides, the positions of a lock, what the ends tell one another, and a query that is out.

/// An end of the line. The first is the client of the line's link, the second its server.
#[derive(Clone, Copy, PartialEq, Eq, Debug)]
pub enum Side {
    First,
    Second,
}

/// Where a lock lies, or where it is driven. At the right the line is locked to this station, and each of its routes
/// onto the line requires that; at the left it is open, and each route in from the line requires that.
#[derive(Clone, Copy, PartialEq, Eq, Debug)]
pub enum Position {
    Left,
    Right,
}

/// What one end tells the other. None of them has anything with it.
#[derive(Clone, Copy, PartialEq, Eq, Debug)]
pub enum Item {
    /// Give me the token.
    Ask,
    /// The token is yours.
    Give,
    /// Is your part clear?
    Query,
    /// My part is clear, now.
    Clear,
    /// I, the second end, have no token. It comes only as the first item of a connection.
    NoToken,
}

impl Default for Item {
    /// For places that hold no item.
    fn default() -> Item {
        Item::Ask
    }
}

/// What an end knows of its own query.
#[derive(Clone, Copy, PartialEq, Eq, Debug)]
pub enum QueryOut {
    /// None is out.
    No,
    /// One is out, and since it was sent this end has had the token and its own part was never occupied.
    Sound,
    /// One is out, and its answer says nothing.
    Spoiled,
}
