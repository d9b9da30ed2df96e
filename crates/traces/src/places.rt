// Where each record ends.
ghost use Rattle.std.specs.Prelude.{◌≡◌, ◌+◌, ◌≤◌, length, get_or, IfSome, MatchOption};
ghost use Rattle.traces.specs.Places.{place_behind_record as places_behind, found, bad_length, octets_end, list_end};
ghost use Rattle.traces.specs.Records.{number_of, IsUnknown, report_call_end, good_action, writer_call_end, fields_end, record_end};

use crate::elements::elements_at;
use octets::{Kind, octet, pair_at, size};

// No length in a record is over this.
const MOST: u16 = 4096;

// What a record is.
#[derive(Clone, Copy)]
pub enum RecordKind {
    Setup,
    Clock,
    LogTransition,
    TakeFrame,
    Report,
    Roam,
    ChangeNetwork,
    LogRsna,
    LogPeerLink,
    WriteRequest,
    ReadReport,
    Explain,
}

// What the record at a position is, by its number; nothing where no record has the number.
pub fn record_kind(s: &[u8], at: usize) -> Option<RecordKind>
    ensures { MatchOption result (IsUnknown (get_or s.now at 0)) (λ kind. number_of kind ≡ get_or s.now at 0) }
{
    match octet(s, at) {
        0 => Some(RecordKind::Setup),
        1 => Some(RecordKind::Clock),
        2 => Some(RecordKind::LogTransition),
        3 => Some(RecordKind::TakeFrame),
        4 => Some(RecordKind::Report),
        5 => Some(RecordKind::Roam),
        6 => Some(RecordKind::ChangeNetwork),
        7 => Some(RecordKind::LogRsna),
        8 => Some(RecordKind::LogPeerLink),
        16 => Some(RecordKind::WriteRequest),
        17 => Some(RecordKind::ReadReport),
        18 => Some(RecordKind::Explain),
        _ => None,
    }
}

// Where so many octets from a position on end. From 0 nowhere, since the definitions write 0 for no place.
pub(crate) fn behind(s: &[u8], at: usize, n: usize) -> Option<usize>
    ensures place { result ≡ found (places_behind s.now at n) }
    ensures within { IfSome result (λ end. (end ≡ at + n) × (end ≤ length s.now)) }
{
    if at == 0 {
        return None;
    }
    if s.len() < at {
        return None;
    }
    if s.len() - at < n {
        return None;
    }
    Some(at + n)
}

fn bad_length(s: &[u8], at: usize) -> bool
    ensures { result ≡ bad_length s.now at }
{
    MOST < pair_at(s, at)
}

// A length and so many octets.
fn octets_end(s: &[u8], at: usize) -> Option<usize>
    ensures { result ≡ found (octets_end s.now at) }
{
    if bad_length(s, at) {
        return None;
    }
    let from = behind(s, at, 2)?;
    behind(s, from, pair_at(s, at) as usize)
}

// A number of requesters and so many of them.
fn list_end(s: &[u8], at: usize) -> Option<usize>
    ensures { result ≡ found (list_end s.now at) }
{
    let from = behind(s, at, 1)?;
    behind(s, from, 7 * size(s, at))
}

// The fields of a report call. Its kind is tested as an octet, here and in the writer's call: a number of none is
// refused, where `Kind::from` would take it for a diagnostic's.
fn report_call_end(s: &[u8], at: usize) -> Option<usize>
    ensures { result ≡ found (report_call_end s.now at) }
{
    let end = behind(s, at, 14)?;
    if 1 < octet(s, at + 10) {
        return None;
    }
    if bad_length(s, at + 11) {
        return None;
    }
    Some(end)
}

fn good_action(action: u8) -> bool
    ensures { result ≡ good_action action }
{
    action == 0 || action == 2
}

// The fields of a request writer's call, with its elements.
fn writer_call_end(s: &[u8], at: usize) -> Option<usize>
    ensures { result ≡ found (writer_call_end s.now at) }
{
    let from = behind(s, at, 6)?;
    if bad_length(s, at) {
        return None;
    }
    let action = octet(s, at + 3);
    if !good_action(action) {
        return None;
    }
    let w = elements_at(s, Kind::from(action), octet(s, at + 5), from)?;
    Some(w.end)
}

// The fields of a record. A match, which the compiler holds to name every kind.
fn fields_end(s: &[u8], kind: RecordKind, at: usize) -> Option<usize>
    ensures { result ≡ found (fields_end s.now (number_of kind) at) }
{
    match kind {
        RecordKind::Setup => list_end(s, octets_end(s, at)?),
        RecordKind::Clock => behind(s, at, 4),
        RecordKind::LogTransition => behind(s, at, 59),
        RecordKind::TakeFrame => octets_end(s, behind(s, at, 16)?),
        RecordKind::Report => report_call_end(s, at),
        RecordKind::Roam => list_end(s, behind(s, at, 4)?),
        RecordKind::ChangeNetwork => list_end(s, behind(s, at, 4)?),
        RecordKind::LogRsna => octets_end(s, behind(s, at, 55)?),
        RecordKind::LogPeerLink => behind(s, at, 49),
        RecordKind::WriteRequest => writer_call_end(s, at),
        RecordKind::ReadReport => octets_end(s, behind(s, at, 7)?),
        RecordKind::Explain => behind(s, octets_end(s, at)?, 4),
    }
}

// Where the record at a position ends; nowhere where it is cut, unknown, or has a field out of its range.
pub fn record_end(s: &[u8], at: usize) -> Option<usize>
    ensures { result ≡ found (record_end s.now at) }
{
    if s.len() <= at {
        return None;
    }
    let kind = record_kind(s, at)?;
    fields_end(s, kind, at + 1)
}
