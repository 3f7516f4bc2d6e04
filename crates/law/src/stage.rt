/// The stages of a session: made, opened after an opening, listing after a pattern, ended after END.
#[derive(Clone, Copy)]
pub enum Stage {
    Made,
    Opened,
    Listing,
    Ended,
}

/// The calls of a session, by name.
#[derive(Clone, Copy)]
pub enum Ask {
    Open,
    Next,
    Skip,
    Raise,
    Probe,
    Tell,
}
