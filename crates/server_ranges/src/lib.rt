// Reading Range: the specs of a value, read once from front to back, and what the table of statuses asks of them.
#![tactic(auto)]

pub mod data; // A part's data in the file.
pub mod parts; // The parts of an answer, at the front of a slice: a run is placed among those before it, joined with all that it overlaps or touches.
mod resolve; // What a spec of a Range value asks of a file: whether it ends before it begins, and its run where it is satisfiable.

ghost use Rattle.std.specs.Prelude.{◌≡◌, ◌<◌, ◌≤◌, ◌^◌, ◌∷◌, length, Ok};
ghost use Rattle.rules_server.specs.Ranges.{meaning, members, read_members, read_list, read_range};
ghost use Rattle.server_ranges.specs.Listing.{room_of};
ghost use Rattle.server_ranges.specs.Members.{members_left, bytes_left};
ghost use Rattle.server_ranges.specs.RangeSets.{RangeSetRead};
ghost use Rattle.server_ranges.specs.Tallies.{SpecTallied, Tallied, no_specs, go_on};
ghost use Rattle.server_ranges.specs.Reads.{read_text};

use crate::parts::place;
use crate::resolve::resolve;
use numerals::counts::count_digits;
use octets::any_case::same_fold;
use octets::blanks::trim;
use octets::is_blank;
use octets::searches::index_of;
use octets::texts::BYTES_UNIT;
use rules_server::{Limits, Numeral, Run, Spec};

// Why a Range value lists no specs: it is of another unit, or malformed.
#[derive(Clone, Copy, Debug, PartialEq, Eq)]
pub enum Unread {
    Unit,
    Malformed,
}

// What the specs of a Range value ask of a file (RFC 7233, byte-range-set): how many they are, whether one ends before it begins, whether one is satisfiable,
// and how many parts an answer has, none where they are more than MAX_SPECS.
#[derive(Clone, Copy)]
pub struct RangeSet {
    pub count: usize,
    pub invalid: bool,
    pub satisfiable: bool,
    pub parts: usize,
}

// The spec that m begins with, and the place behind it.
fn read_spec(m: &[u8]) -> Option<(Spec, usize)>
    ensures { result ≡ read_text m.now }
{
    let k = count_digits(m);
    if k == m.len() || m[k] != b'-' {
        return None;
    }
    let after = k + 1;
    let j = count_digits(&m[after..]);
    let first = Numeral { start: 0, len: k };
    let last = Numeral {
        start: after,
        len: j,
    };
    let spec = match (k, j) {
        (0, 0) => return None,
        (0, _) => Spec::Suffix(last),
        (_, 0) => Spec::From(first),
        _ => Spec::FirstLast(first, last),
    };
    Some((spec, after + j))
}

// The range set t with one spec more, of the text m.
fn with_spec(t: RangeSet, m: &[u8], s: Spec, n: usize, parts: &mut [Run]) -> RangeSet
    requires few { t.count < 2 ^ 63 }
    requires fits { t.parts ≤ room_of parts.old }
    ensures { SpecTallied n t (meaning m.now s) parts.old result parts.new }
{
    let r = resolve(m, s, n);
    let placed = match r.run {
        Some(run) => place(parts, t.parts, run),
        None => t.parts,
    };
    RangeSet {
        count: t.count + 1,
        invalid: t.invalid | r.invalid,
        satisfiable: t.satisfiable | r.run.is_some(),
        parts: placed,
    }
}

// The first member of l, and what stands behind the comma after it, if one does.
fn split_member(l: &[u8]) -> (&[u8], Option<&[u8]>)
    ensures members { members l.now ≡ result.0.now ∷ members_left result.1 }
    ensures fewer { bytes_left result.1 ≤ length l.now }
{
    let e = index_of(l, b',');
    (&l[..e], l.get(e + 1..))
}

// The range set of the members of l, which may all be empty.
fn read_members(l: &[u8], n: usize, parts: &mut [Run]) -> Result<RangeSet, Unread>
    ensures { Tallied (go_on (room_of parts.old) n no_specs (read_members (members l.now))) result parts.old parts.new }
{
    let mut t = RangeSet {
        count: 0,
        invalid: false,
        satisfiable: false,
        parts: 0,
    };
    let mut rest = Some(l);
    while let Some(list) = rest {
        let (member, behind) = split_member(list);
        rest = behind;
        let m = trim(member);
        if m.is_empty() {
            continue;
        }
        let Some((spec, end)) = read_spec(m) else {
            return Err(Unread::Malformed);
        };
        if end < m.len() {
            return Err(Unread::Malformed);
        }
        t = with_spec(t, m, spec, n, parts);
    }
    Ok(t)
}

// The range set behind the unit. Beyond MAX_SPECS specs it has no parts.
fn read_list(l: &[u8], n: usize, parts: &mut [Run]) -> Result<RangeSet, Unread>
    ensures { RangeSetRead n (read_list l.now) result parts.old parts.new }
{
    if l.is_empty() || is_blank(l[0]) {
        return Err(Unread::Malformed);
    }
    let t = read_members(l, n, parts)?;
    if t.count == 0 {
        return Err(Unread::Malformed);
    }
    if Limits::MAX_SPECS < t.count {
        return Ok(RangeSet { parts: 0, ..t });
    }
    Ok(t)
}

// The range set of a trimmed Range value, for a file of n bytes. Its parts go to the front of the slice, as many as there is room for; what stands behind them
// there may be any runs.
pub fn read_range_set(v: &[u8], n: usize, parts: &mut [Run]) -> Result<RangeSet, Unread>
    ensures { RangeSetRead n (read_range v.now) result parts.old parts.new }
{
    let Some((unit, list)) = v.split_at_checked(BYTES_UNIT.len()) else {
        return Err(Unread::Unit);
    };
    if !same_fold(unit, &BYTES_UNIT) {
        return Err(Unread::Unit);
    }
    read_list(list, n, parts)
}
