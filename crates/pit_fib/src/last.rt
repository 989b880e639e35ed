//! The search for the last of a face's in-records that a Data answers. The last in-record is the
//! in-record with the latest deadline. If several in-records have the latest deadline, the last one
//! is the in-record under the greatest key.
ghost use Rattle.std.specs.Prelude.{◌≡◌};
ghost use Rattle.std.specs.Option.{option_map};
ghost use Rattle.sha2.specs.Sha256.{sha256};
ghost use Rattle.ndn_names.specs.View.{components};
ghost use Rattle.pit_fib.specs.Last.{last_along, last_of};

use crate::entry::InRecord;
use crate::record_tally::Rows;
use crate::row::Row;
use name_trie::Look;
use ndn_names::component_type::IMPLICIT_SHA256_DIGEST;
use ndn_names::{Component, Name};
use ndn_packets::Data;
use std::marker::Model;

/// The state of a search through rows. Among the in-records of the face `face` that the search has
/// found so far, `last` is the last one. The search looks only for in-records that a Data answers.
#[derive(Drop)]
struct LastOf<'a> {
    face: u64,
    last: Option<&'a InRecord>,
}

impl<'a> Model for LastOf<'a> {
    ghost use Rattle.std.specs.Prelude.{ℕ, Option};
    ghost use Rattle.std.specs.Option.{option_map};
    ghost use Rattle.std.specs.Coded.{coded×, coded_option, coded_ℕ};
    ghost use Rattle.pit_fib.specs.Records.{InRecord as PlainInRecord, in_record_code};

    ghost Value = { ℕ × Option PlainInRecord };

    ghost coded = { coded× coded_ℕ (coded_option in_record_code) };

    ghost view = { λ l. (l.face, option_map (λ r. r.now) l.last) };
}

impl<'a> Look<'a, Row> for LastOf<'a> {
    ghost use Rattle.pit_fib.specs.Last.{last_seen};

    ghost seen = { last_seen };

    fn look(&mut self, row: &'a Row, is_own: bool) {
        self.last = row.last_of(is_own, self.face, self.last);
    }
}

/// Returns the in-record with the latest deadline among the face's in-records under two kinds of
/// keys: the keys of `name`, and those keys with CanBePrefix whose name is a proper prefix of
/// `name`. If several of these in-records have the latest deadline, returns the one under the
/// greatest key.
fn last_along<'a>(rows: &'a Rows, name: Name<'_>, face: u64) -> Option<&'a InRecord>
    ensures { option_map (λ r. r.now) result
        ≡ last_along rows.now.table face (components name.entry) }
{
    let mut look = LastOf { face, last: None };
    rows.look_along(name, &mut look);
    look.last
}

/// Returns the in-record with the latest deadline among the face's in-records that a Data answers.
/// If several of these in-records have the latest deadline, returns the one under the greatest key.
/// The Data's digest is computed only if the name of some key may be the Data's name followed by a
/// digest component (`TimedMap::has_below`).
pub fn last_for<'a>(rows: &'a Rows, packet: &Data<'_>, face: u64) -> Option<&'a InRecord>
    ensures { option_map (λ r. r.now) result ≡ last_of rows.now.table face
        (components packet.now.name) (sha256 packet.now.whole.now) }
{
    let last = last_along(rows, packet.name, face);
    if !rows.has_below(packet.name, IMPLICIT_SHA256_DIGEST) {
        return last;
    }
    let digest = packet.digest();
    let component = Component {
        kind: IMPLICIT_SHA256_DIGEST,
        value: &digest,
    };
    match rows.get_below(packet.name, component) {
        Some(row) => row.last_of(true, face, last),
        None => last,
    }
}
