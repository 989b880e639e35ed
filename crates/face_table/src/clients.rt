//! Clients: the links of strangers, and connections, which got their faces while the node runs.
ghost use Rattle.std.specs.Prelude.{◌≡◌, ◌⊎◌, ◌∷◌, ◌++◌, [], ◌+◌, ◌<◌, ◌≤◌, ◌==◌, ◌↔◌, ℕ, Bool, All, length, List, slice_get, slice_set, remove, position, find, option_map, IfSome, IsTrue, Some, None, true, false};
ghost use Rattle.face_table.specs.Clients.{AreAnswers, far_count, Hears, HearsInTime, IsIdle, IsNoClient, IsSilent, IsSilentLongest, IsSilentLongestOf, IsSpared, MayGiveWay, NoneGoes, NoneMayGiveWay};
ghost use Rattle.face_table.specs.Link.{heard_at, is_at, is_local};
ghost use Rattle.face_table.specs.declared.clients.Client.{Client};

use crate::holdings::Holdings;
use crate::link::Link;
use crate::peers::MAX_FACES;
use arrayvec::ArrayVec;
use std::marker::Model;

/// How long a client must have been silent (nothing has arrived from it), in milliseconds, before
/// its face may close to make room for a link without a face, if the node has something for the
/// face (`Holdings`).
pub const GIVE_WAY_MILLISECONDS: u64 = 10_000;

/// A link that is no peer's and has a face.
#[derive(Clone, Copy)]
pub struct Client {
    /// What the face leads to.
    pub link: Link,
    /// The face of the link.
    pub face: u64,
    /// The time when something arrived from the link last, in milliseconds since 1970. It is the
    /// greatest u64 for a Local link, which counts as never silent.
    pub heard: u64,
}

impl Default for Client {
    // Returns a placeholder for an unused array element.
    fn default() -> Client {
        Client {
            link: Link::over_unix(0),
            face: 0,
            heard: 0,
        }
    }
}

/// The clients, at most 64, in the order of their faces.
///
/// If an idle time is set, the face of a client that has been silent for that time may close. If an
/// idle time is set, a Far face may also close to make room for a link without a face: at once if
/// the node has nothing for it (`Holdings`), otherwise after `GIVE_WAY_MILLISECONDS` of silence.
#[derive(Drop)]
pub struct Clients {
    rows: ArrayVec<Client, MAX_FACES>,
    idle: Option<u64>,
    // No client becomes idle before this time, so no search for an idle client is needed until
    // then.
    heard_until: u64,
}

impl Model for Clients {
    ghost use Rattle.face_table.specs.Clients.{AreHeardUntil, ClientsState};

    ghost Value = { ClientsState };

    ghost view = { λ c. record { rows = c.rows.items; idle = c.idle } };

    ghost invariant = { λ c. AreHeardUntil c.heard_until c.idle c.rows.items };
}

impl Clients {
    /// Returns an empty list of clients, with no idle time set.
    pub fn new() -> Clients
        ensures { result ≡ record { rows = []; idle = None } }
    {
        Clients {
            rows: ArrayVec::new(),
            idle: None,
            heard_until: 0,
        }
    }

    /// Sets the idle time, in milliseconds, after which a client's face may close.
    pub fn close_after(&mut self, idle: u64)
        ensures { self.new ≡ record self.old { idle = Some idle } }
    {
        self.idle = Some(idle);
        self.heard_until = 0;
    }

    /// Returns the number of clients.
    pub fn len(&self) -> usize
        ensures exact { result ≡ length self.now.rows }
        ensures small { result ≤ MAX_FACES }
    {
        self.rows.len()
    }

    /// Returns the number of clients whose faces are Far.
    pub fn far(&self) -> usize
        ensures { result ≡ far_count self.now.rows }
    {
        let rows = self.rows.as_slice();
        rows.iter().filter(|client| !client.link.is_local()).count()
    }

    /// Returns the link of a face, or `None` if no client has this face.
    pub fn link_of(&self, face: u64) -> Option<Link>
        ensures { result ≡ option_map (λ client. client.link)
            (find (λ client. client.face == face) self.now.rows) }
    {
        let client = self
            .rows
            .as_slice()
            .iter()
            .find(|client| client.face == face)?;
        Some(client.link)
    }

    /// Appends a client. Precondition: there are fewer than 64 clients.
    pub fn push(&mut self, client: Client)
        requires { length self.old.rows < MAX_FACES }
        ensures { self.new ≡ record self.old { rows = self.old.rows ++ (client ∷ []) } }
    {
        self.heard_until = self.heard_until.min(end_of(self.idle, client.heard));
        self.rows.push(client);
    }

    /// Removes the client at index `place`.
    pub fn remove(&mut self, place: usize)
        requires { place < length self.old.rows }
        ensures { self.new ≡ record self.old { rows = remove self.old.rows place } }
    {
        let _client = self.rows.remove(place);
    }

    /// If a client has this link, notes that something arrived from it at the time `now`, and
    /// returns the client's face. Returns `None` if no client has this link.
    pub fn hear(&mut self, link: Link, now: u64) -> Option<u64>
        ensures found { IfSome result (λ face. (rows : List Client)
            × Hears self.old.rows rows link now face
            × (self.new ≡ record self.old { rows = rows })) }
        ensures none { result ≡ None → IsNoClient self.old.rows link × (self.new ≡ self.old) }
    {
        let place = self.place_of(link)?;
        Some(self.hear_at(place, now))
    }

    /// If a client has this link and is not idle, notes that something arrived from it at the time
    /// `now`.
    pub fn hear_in_time(&mut self, link: Link, now: u64)
        ensures heard { (rows : List Client)
            × HearsInTime self.old.idle self.old.rows rows link now
            × (self.new ≡ record self.old { rows = rows }) }
        ensures len { length self.new.rows ≡ length self.old.rows }
    {
        if let Some(place) = self.place_of(link) {
            if !self.is_idle_at(place, now) {
                let _face = self.hear_at(place, now);
            }
        }
    }

    /// Returns whether the client at index `place` is idle at the time `now`.
    fn is_idle_at(&self, place: usize, now: u64) -> bool
        requires { place < length self.now.rows }
        ensures yes { result ≡ true → (client : Client)
            → slice_get self.now.rows place ≡ Some client → IsIdle self.now.idle now client }
        ensures no { result ≡ false → (client : Client)
            → slice_get self.now.rows place ≡ Some client → IsIdle self.now.idle now client → ⊥ }
    {
        match self.idle {
            Some(idle) => is_silent(self.rows.as_slice()[place].heard, idle, now),
            None => false,
        }
    }

    /// Returns the face of the client at index `place`.
    pub fn face_at(&self, place: usize) -> u64
        requires { place < length self.now.rows }
        ensures { (client : Client) → slice_get self.now.rows place ≡ Some client
            → result ≡ client.face }
    {
        self.rows.as_slice()[place].face
    }

    /// Returns the index of the first client with this link, or `None` if no client has this link.
    pub fn place_of(&self, link: Link) -> Option<usize>
        ensures first { result ≡ position (λ client. is_at link client.link) self.now.rows }
        ensures within { IfSome result (λ place. place < length self.now.rows) }
    {
        self.rows
            .as_slice()
            .iter()
            .position(|client| client.link.is_at(&link))
    }

    /// Notes that something arrived from the client at index `place` at the time `now`. Returns the
    /// client's face.
    fn hear_at(&mut self, place: usize, now: u64) -> u64
        requires { place < length self.old.rows }
        ensures { (client : Client) × (slice_get self.old.rows place ≡ Some client)
            × (result ≡ client.face)
            × (self.new ≡ record self.old {
              rows = slice_set self.old.rows place
                  (record client { heard = heard_at client.link now });
            }) }
    {
        self.heard_until = self.heard_until.min(end_of(self.idle, now));
        hear_at(self.rows.as_mut_slice(), place, now)
    }

    /// Returns the index of the client that has been silent longest, or `None` if that client is
    /// not idle at the time `now`, or if there is no client.
    pub fn idle_place(&mut self, now: u64) -> Option<usize>
        ensures same { self.new ≡ self.old }
        ensures none { result ≡ None
            → All (λ client. IsIdle self.old.idle now client → ⊥) self.old.rows }
        ensures longest { IfSome result (λ place. (client : Client)
            × IsSilentLongest self.old.rows place client × IsIdle self.old.idle now client) }
        ensures within { IfSome result (λ place. place < length self.old.rows) }
    {
        let idle = self.idle?;
        if now < self.heard_until {
            return None;
        }
        let place = self.silent_for(idle, now);
        self.heard_until = first_end(self.rows.as_slice(), idle);
        place
    }

    /// Returns the index of the client that has been silent longest of those whose faces may close
    /// at the time `now` to make room for a link without a face. If several of them have been
    /// silent equally long, returns the index of the first of these. Returns `None` if no client's
    /// face may close to make room.
    pub fn yielding_place<H: Holdings>(&self, now: u64, holdings: &H) -> Option<usize>
        ensures none { result ≡ None
            → NoneMayGiveWay self.now.idle now (H.Answers holdings.now) self.now.rows }
        ensures longest { IfSome result (λ place. (told : List Bool) × (client : Client)
            × AreAnswers (H.Answers holdings.now) self.now.rows told
            × IsSilentLongestOf (MayGiveWay self.now.idle now told) self.now.rows place client) }
        ensures within { IfSome result (λ place. place < length self.now.rows) }
    {
        let _idle = self.idle?;
        let told = answers(self.rows.as_slice(), holdings);
        first_spared(self.rows.as_slice(), told.as_slice(), now)
    }

    /// Returns the index of the client that has been silent longest, if that client has been silent
    /// for at least `time` milliseconds at the time `now`. Returns `None` if no client has been
    /// silent for this long.
    fn silent_for(&self, time: u64, now: u64) -> Option<usize>
        ensures none { result ≡ None
            → All (λ client. IsSilent time now client → ⊥) self.now.rows }
        ensures longest { IfSome result (λ place. (client : Client)
            × IsSilentLongest self.now.rows place client × IsSilent time now client) }
        ensures within { IfSome result (λ place. place < length self.now.rows) }
    {
        let rows = self.rows.as_slice();
        if rows.is_empty() {
            return None;
        }
        let place = silent_longest(rows);
        if is_silent(rows[place].heard, time, now) {
            Some(place)
        } else {
            None
        }
    }
}

/// Returns whether at least `time` milliseconds have passed between `heard` and `now`.
fn is_silent(heard: u64, time: u64, now: u64) -> bool
    ensures { IsTrue result ↔ (heard + time ≤ now) }
{
    heard <= now && now - heard >= time
}

/// Returns the time at which a client becomes idle, if something arrived from it at the time
/// `heard` and nothing more arrives. Returns the greatest u64 if this time is greater, or if no
/// idle time is set.
fn end_of(idle: Option<u64>, heard: u64) -> u64
    ensures { IfSome idle (λ idle. result ≤ heard + idle) }
{
    match idle {
        Some(idle) => heard.saturating_add(idle),
        None => u64::MAX,
    }
}

/// Notes that something arrived from the client at index `place` at the time `now`. Returns the
/// client's face.
fn hear_at(clients: &mut [Client], place: usize, now: u64) -> u64
    requires { place < length clients.old }
    ensures { (client : Client) × (slice_get clients.old place ≡ Some client)
        × (result ≡ client.face)
        × (clients.new ≡ slice_set clients.old place
        (record client { heard = heard_at client.link now })) }
{
    clients[place].heard = clients[place].link.heard_at(now);
    clients[place].face
}

/// Returns a time before which no client has been silent for `time` milliseconds.
fn first_end(clients: &[Client], time: u64) -> u64
    ensures { All (λ client. result ≤ client.heard + time) clients.now }
{
    let mut first = u64::MAX;
    for place in 0..clients.len() {
        first = first.min(clients[place].heard.saturating_add(time));
    }
    first
}

/// Returns the index of the client that has been silent longest. If several clients have been
/// silent for the same longest time, returns the index of the first of these clients. Precondition:
/// there is at least one client.
fn silent_longest(clients: &[Client]) -> usize
    requires { 0 < length clients.now }
    ensures within { result < length clients.now }
    ensures longest { (client : Client) × IsSilentLongest clients.now result client }
{
    let mut longest = 0;
    for place in 1..clients.len() {
        if clients[place].heard < clients[longest].heard {
            longest = place;
        }
    }
    longest
}

/// Returns what the node answers for the face of each client, in the same order: whether it has
/// something for this face. There must be at most 64 clients.
fn answers<H: Holdings>(clients: &[Client], holdings: &H) -> ArrayVec<bool, MAX_FACES>
    requires { length clients.now ≤ MAX_FACES }
    ensures { AreAnswers (H.Answers holdings.now) clients.now result.items }
{
    let mut told = ArrayVec::new();
    for place in 0..clients.len() {
        told.push(holdings.holds(clients[place].face));
    }
    told
}

/// Returns the index of the client that has been silent longest of those whose faces can be spared.
/// If several of them have been silent equally long, returns the index of the first of these.
/// Returns `None` if no client's face can be spared. `told` has an answer for each client: whether
/// the node has something for its face.
fn first_spared(clients: &[Client], told: &[bool], now: u64) -> Option<usize>
    requires { length told.now ≡ length clients.now }
    ensures none { result ≡ None → NoneGoes (IsSpared now told.now) clients.now }
    ensures longest { IfSome result (λ place. (client : Client)
        × IsSilentLongestOf (IsSpared now told.now) clients.now place client) }
    ensures within { IfSome result (λ place. place < length clients.now) }
{
    let mut first = None;
    for place in 0..clients.len() {
        if is_spared(&clients[place], told[place], now) && is_longer(clients, place, first) {
            first = Some(place);
        }
    }
    first
}

/// Returns whether the client's face can be spared at the time `now`. `is_held` is whether the node
/// has something for the face.
fn is_spared(client: &Client, is_held: bool, now: u64) -> bool
    ensures { IsTrue result ↔ (is_local client.now.link ≡ false)
        × ((is_held ≡ false) ⊎ IsSilent GIVE_WAY_MILLISECONDS now client.now) }
{
    !client.link.is_local() && (is_silent(client.heard, GIVE_WAY_MILLISECONDS, now) || !is_held)
}

/// Returns whether the client at index `place` has been silent longer than the one at index
/// `other`, or there is no such other.
fn is_longer(clients: &[Client], place: usize, other: Option<usize>) -> bool
    requires place { place < length clients.now }
    requires other { IfSome other (λ other. other < length clients.now) }
    ensures yes { result ≡ true → IfSome other (λ other. (client later : Client)
        → slice_get clients.now place ≡ Some client → slice_get clients.now other ≡ Some later
        → client.heard < later.heard) }
    ensures no { result ≡ false → (known : ℕ) × (other ≡ Some known)
        × ((client sooner : Client) → slice_get clients.now place ≡ Some client
        → slice_get clients.now known ≡ Some sooner → sooner.heard ≤ client.heard) }
{
    match other {
        Some(other) => clients[place].heard < clients[other].heard,
        None => true,
    }
}
