//! The connection that rules are asked about.
ghost use Rattle.std.specs.Prelude.{◌≡◌};
ghost use Rattle.rule_engine.specs.Meaning.{present};

use acl_core::{Acl, Criterion, Value};
use addr_core::Addr;
use plan_types::{TableId, Track};
use proxy_types::COUNTERS;

/// The tracks that a list of rules has made, by counter.
pub type Tracks = [Option<Track>; COUNTERS];

/// No counter tracks.
pub const NO_TRACKS: Tracks = [None; COUNTERS];

/// A connection in its section, before a list of rules. What the list has tracked so far comes by
/// counter.
pub trait Scene {
    ghost use Rattle.rule_engine.specs.Meaning.{SceneMeaning};

    ghost meaning: { Self → SceneMeaning };

    /// Whether the counter tracked nothing before the list.
    fn is_free(&self, counter: u8) -> bool
        ensures { result ≡ (meaning self.now).is_free counter };

    /// The ACLs of the section.
    fn acls(&self) -> &[Acl]
        ensures { result.now ≡ (meaning self.now).acls };

    /// The value of a criterion, once those tracks are made.
    fn value(&self, tracks: &Tracks, criterion: &Criterion) -> Value
        ensures { result ≡ (meaning self.now).worth (present tracks.now) criterion.now };

    /// What a track in the table of that number would track, once those tracks are made: nothing where
    /// the table does not take the source address, or has no room.
    fn key(&self, tracks: &Tracks, table: u16) -> Option<(TableId, Addr)>
        ensures { result ≡ (meaning self.now).key (present tracks.now) table };
}
