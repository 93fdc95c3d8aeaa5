//! Running totals of open connections, by the names of backends.
ghost use Rattle.std.specs.Prelude.{◌≡◌, ◌+◌, ◌-◌, ◌<◌, ◌^◌, ℕ, List, length, position, Some, IfOk};
ghost use Rattle.slot_core.specs.declared.slots.Count.{Count};
ghost use Rattle.slot_core.specs.declared.totals.TheConstants.{GUESSES};
ghost use Rattle.slot_core.specs.Totals.{has_name, is_unused, name_at, connections_at, servers_at, with_connections, with_servers, with_total, AreTotals, NamesDiffer};

use list_core::Seq;
use std::alloc::{AllocError, Global};
use text_core::is_same_name;

/// The open connections to the servers of the backend of a name.
#[derive(Debug, Drop)]
pub struct BackendTotal {
    pub name: Seq<u8>,
    pub connections: u64,
    /// How many servers of it are counted.
    pub servers: usize,
}

/// For how many names there are guesses.
const GUESSES: usize = 1024;

/// How many of a name's last bytes its number follows from.
const LAST_BYTES: usize = 16;

/// Where the totals of names most likely are. Names of one number share a guess, which is right for the one that was
/// noted last, and each guess is checked.
#[derive(Drop)]
pub struct Guesses {
    places: [u16; GUESSES],
}

impl Guesses {
    /// The first place for each name.
    pub fn new() -> Guesses {
        Guesses {
            places: [0; GUESSES],
        }
    }

    /// Where the total of a name most likely is.
    pub fn place(&self, name: &[u8]) -> usize {
        usize::from(self.places[number_of(name)])
    }

    /// Notes where the total of a name is.
    pub fn note(&mut self, name: &[u8], place: usize) {
        self.places[number_of(name)] = u16::try_from(place).unwrap_or(0);
    }
}

/// A number that follows from a name's length and its last bytes. Names of one file mostly have different ones.
fn number_of(name: &[u8]) -> usize
    ensures { result < GUESSES }
{
    let begin = name.len().saturating_sub(LAST_BYTES);
    let mut number: u32 = 0;
    for byte in &name[begin..] {
        number = number.wrapping_mul(37).wrapping_add(u32::from(*byte));
    }
    (number as usize).wrapping_add(name.len()) % GUESSES
}

/// Where the total of a backend's name is. One that is new takes the place of one that has no server any more, if there
/// is one, and else it is the last.
pub fn place_of_total(
    alloc: Global,
    totals: &mut Vec<BackendTotal>,
    name: &[u8],
) -> Result<usize, AllocError>
    ensures there { IfOk result (λ place. name_at place totals.new.items ≡ Some name.now) }
    ensures kept { (counts : List Count) (backends : List ℕ) → AreTotals counts backends totals.old.items → AreTotals counts backends totals.new.items }
{
    if let Some(place) = find_total(totals.as_slice(), name) {
        return Ok(place);
    }
    let total = BackendTotal {
        name: Seq::duplicate_of(alloc, name)?,
        connections: 0,
        servers: 0,
    };
    if let Some(place) = find_unused(totals.as_slice()) {
        totals[place] = total;
        return Ok(place);
    }
    let place = totals.len();
    totals.push(total)?;
    Ok(place)
}

/// Where the total of that name is. It is looked for at that place first.
pub fn find_near(totals: &[BackendTotal], name: &[u8], guess: usize) -> Option<usize>
    requires { NamesDiffer totals.now }
    ensures { result ≡ position (has_name name.now) totals.now }
{
    match totals.get(guess) {
        Some(total) if is_named(total, name) => Some(guess),
        _ => find_total(totals, name),
    }
}

fn is_named(total: &BackendTotal, name: &[u8]) -> bool
    ensures { result ≡ has_name name.now total.now }
{
    is_same_name(total.name.as_slice(), name)
}

/// Where the total of that name is.
pub fn find_total(totals: &[BackendTotal], name: &[u8]) -> Option<usize>
    ensures { result ≡ position (has_name name.now) totals.now }
{
    totals
        .iter()
        .position(|total| is_same_name(total.name.as_slice(), name))
}

/// The first of which no server is counted.
fn find_unused(totals: &[BackendTotal]) -> Option<usize>
    ensures { result ≡ position is_unused totals.now }
{
    totals.iter().position(|total| total.servers == 0)
}

/// One open connection more.
pub fn open_one(totals: &mut Vec<BackendTotal>, place: usize)
    requires there { place < length totals.old.items }
    requires below { connections_at place totals.old.items < 2 ^ 64 - 1 }
    ensures { totals.new.items ≡ with_total (with_connections (λ n. n + 1)) place totals.old.items }
{
    totals[place].connections += 1;
}

/// One open connection less.
pub fn close_one(totals: &mut Vec<BackendTotal>, place: usize)
    requires there { place < length totals.old.items }
    requires some { 0 < connections_at place totals.old.items }
    ensures { totals.new.items ≡ with_total (with_connections (λ n. n - 1)) place totals.old.items }
{
    totals[place].connections -= 1;
}

/// One server more.
pub fn join(totals: &mut Vec<BackendTotal>, place: usize)
    requires there { place < length totals.old.items }
    requires below { servers_at place totals.old.items < 2 ^ 64 - 1 }
    ensures { totals.new.items ≡ with_total (with_servers (λ n. n + 1)) place totals.old.items }
{
    totals[place].servers += 1;
}

/// One server less.
pub fn leave(totals: &mut Vec<BackendTotal>, place: usize)
    requires there { place < length totals.old.items }
    requires some { 0 < servers_at place totals.old.items }
    ensures { totals.new.items ≡ with_total (with_servers (λ n. n - 1)) place totals.old.items }
{
    totals[place].servers -= 1;
}
