// The feed reader: the bytes lent to it, and the place of the next entry. Its functions are public by these names, so they are no
// methods.
ghost use Rattle.std.specs.Prelude.{◌≡◌};
ghost use Rattle.book.specs.layouts.Reading.{reading, read_outcome};

use crate::reader::{Found, ReadError, read_entry};

#[derive(Clone, Copy)]
pub struct Feed<'a> {
    bytes: &'a [u8],
    place: usize,
}

pub fn feed_at<'a>(bytes: &'a [u8], place: usize) -> Feed<'a>
    ensures { (result.bytes ≡ bytes.entry) × (result.place ≡ place) }
{
    Feed { bytes, place }
}

// The work is left to `read_entry`, which takes the bytes and the place.
pub fn next_entry(feed: Feed) -> Result<Found, ReadError>
    ensures { read_outcome feed.entry.place result ≡ reading feed.entry.bytes.now feed.entry.place }
{
    read_entry(feed.bytes, feed.place)
}

// For callers that keep the place themselves.
pub fn read_next(bytes: &[u8], place: usize) -> Result<Found, ReadError>
    ensures { read_outcome place result ≡ reading bytes.now place }
{
    next_entry(feed_at(bytes, place))
}
