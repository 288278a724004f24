// A session before its first line.
ghost use Rattle.std.specs.Prelude.{◌≡◌};
ghost use Rattle.event_sessions.specs.Noted.{no_shape, fresh_session};

use crate::session::Session;
use grid_shapes::VersionShape;
use pool_open::{opened_book, opened_pool};

// Returns the shape that stands where no take line came.
#[tactic(auto, unfolding(crate::specs::Noted::no_shape))]
fn no_shape() -> VersionShape
    ensures { result ≡ no_shape }
{
    VersionShape {
        format: 0,
        width: 0,
        height: 0,
        depth: 0,
        levels: 0,
        kind: 0,
        storage: 0,
        usage: 0,
        red: 0,
        green: 0,
        blue: 0,
        alpha: 0,
    }
}

// Returns a session in which nothing is opened and no take line came. Its pool, pacing book and shape do not count yet.
pub fn fresh() -> Session
    ensures { result ≡ fresh_session }
{
    Session {
        opened: 0,
        taken: 0,
        pool: opened_pool(0),
        book: opened_book(),
        shape: no_shape(),
    }
}
