//! How far the next request was read.
use http_read::{BodyReader, HeadReader, Request};

/// How far the next request was read.
#[derive(Drop)]
pub enum Stage {
    /// Its head isn't whole.
    Head(HeadReader),
    /// Its head was accepted, and its body isn't whole.
    Body(Request, BodyReader),
    /// It is whole.
    Whole(Request),
    /// It is refused by the code; and whether its head was accepted and its client waited to be told to send the body.
    Refused(u16, bool),
}
