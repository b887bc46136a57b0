//! What a server is asked to do, and with what it does it.

/// A second door, for views.
#[derive(Clone, Copy)]
pub struct ViewAsked<'a> {
    /// Where it opens.
    pub address: &'a str,
    /// The most connections that it may give, from 1 to 1,000,000.
    pub views: u32,
}

/// What a server is asked to do.
#[derive(Clone, Copy)]
pub struct Asked<'a> {
    /// Where its door opens.
    pub address: &'a str,
    /// How many connections there are in all, from 1 to 1,000,000.
    pub connections: u32,
    /// Whether a journal is written.
    pub journal: bool,
    pub view: Option<ViewAsked<'a>>,
    /// The path at which channels are kept beyond the run, where they are.
    pub keep: Option<&'a str>,
}

/// What a server is lent for its run.
#[derive(Drop)]
pub struct Objects<D, K, P> {
    /// The door of the connections.
    pub door: D,
    /// The door of the views. It is opened where views are asked for.
    pub view: D,
    /// The clock by which bans start and end.
    pub clock: K,
    /// What keeps channels beyond the run. It is opened where that is asked for.
    pub keeper: P,
}
