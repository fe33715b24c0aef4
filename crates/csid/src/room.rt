//! Checks that the process has memory left: below the limits of its control groups, at which the system kills
//! it, and below the limit of its address space, at which an allocation fails.

use std::cell::Cell;
use std::fs;

// The folders at which control groups are mounted: groups of version 2, and the groups of version 1 that
// limit memory.
const GROUPS: &str = "/sys/fs/cgroup";

const MEMORY_GROUPS: &str = "/sys/fs/cgroup/memory";

// The size in bytes of the pages of memory that `/proc/self/statm` counts.
const PAGE_BYTES: u64 = 4096;

// The part of a control group's limit that is left for calls, in bytes. An eighth of the limit is left for
// calls in addition.
const CALL_BYTES: u64 = 8 << 20;

// The part of the address space that is left for calls, in bytes. A call that needs more memory is refused,
// and the process goes on.
const CALL_SPACE_BYTES: u64 = 4 << 20;

// A limit of memory, and how much memory the process used at the start and at the last measurement.
struct Limit {
    // The greatest number of bytes that the process may use: the limit of the system without the part that is
    // left for calls.
    most: u64,
    // The bytes that the process used at the start.
    base: u64,
    // The bytes that the process used at the last measurement.
    last: Cell<u64>,
}

impl Drop for Limit {
    fn drop(self) {
        let Limit {
            most: _,
            base: _,
            last: _,
        } = self;
    }
}

impl Limit {
    fn new(most: u64, used: u64) -> Limit {
        Limit {
            most,
            base: used,
            last: Cell::new(used),
        }
    }

    // Returns true if both of these stay within the limit, and records `used` as the last measurement:
    //
    // - the memory in use, if it grows again as much as since the last measurement
    // - the memory in use at the start, and the `opening` bytes of the next opening of tables
    fn has_room(&self, used: u64, opening: u64) -> bool {
        let grown = used.saturating_sub(self.last.replace(used));
        let is_spent = used.saturating_add(grown) > self.most;
        !is_spent && self.base.saturating_add(opening) <= self.most
    }
}

// The memory that the process uses, in bytes: its address space, and the part of it that is in physical
// memory.
#[derive(Clone, Copy)]
struct Usage {
    address_space: u64,
    resident: u64,
}

// Parses a number of pages and returns their size in bytes. Returns `None` if the word is missing or not a
// number.
fn pages(word: Option<&str>) -> Option<u64> {
    let pages: u64 = word?.parse().ok()?;
    Some(pages.saturating_mul(PAGE_BYTES))
}

// Returns the memory that the process uses, or `None` if the system does not report it.
fn used(rt: &HostRuntime) -> Option<Usage> {
    let text = fs::read_to_string(rt, "/proc/self/statm").ok()?;
    let mut words = text.as_str().split(' ');
    let address_space = pages(words.next())?;
    Some(Usage {
        address_space,
        resident: pages(words.next())?,
    })
}

// Returns the limit in a file of a control group, in bytes, or `None` if the file cannot be read or has no
// limit.
fn limit_in(rt: &HostRuntime, root: &str, group: &str, file: &str) -> Option<u64> {
    let path = format!(in rt.alloc(); "{root}{group}/{file}").ok()?;
    let text = fs::read_to_string(rt, path.as_str()).ok()?;
    text.as_str().trim().parse().ok()
}

// Returns the lower of two limits. `None` means no limit.
fn lower(one: Option<u64>, other: Option<u64>) -> Option<u64> {
    match (one, other) {
        (Some(one), Some(other)) if other < one => Some(other),
        (None, other) => other,
        (one, _) => one,
    }
}

// Returns the lowest limit of a group and of the groups above it, up to the root. Returns `None` if none of
// these groups has a limit.
fn lowest_limit(rt: &HostRuntime, root: &str, group: &str, file: &str) -> Option<u64> {
    let mut lowest = limit_in(rt, root, "", file);
    let mut rest = group;
    for _ in 0..group.len() {
        if rest.is_empty() {
            return lowest;
        }
        lowest = lower(lowest, limit_in(rt, root, rest, file));
        rest = match rest.rsplit_once('/') {
            Some((parent, _)) => parent,
            None => "",
        };
    }
    lowest
}

// Returns the memory limit of the group in a line `NUMBER:CONTROLLERS:GROUP`. Returns `None` if the group has
// no limit, or the controllers in the line do not limit memory.
fn limit_of_line(rt: &HostRuntime, line: &str) -> Option<u64> {
    let (number, rest) = line.split_once(':')?;
    let (controllers, group) = rest.split_once(':')?;
    if number == "0" && controllers.is_empty() {
        return lowest_limit(rt, GROUPS, group, "memory.max");
    }
    if controllers == "memory" {
        return lowest_limit(rt, MEMORY_GROUPS, group, "memory.limit_in_bytes");
    }
    None
}

// Returns the lowest memory limit of the control groups of the process, or `None` if they have no limit.
fn group_limit(rt: &HostRuntime) -> Option<u64> {
    let lines = fs::read_to_string(rt, "/proc/self/cgroup").ok()?;
    let mut lowest = None;
    for line in lines.as_str().lines() {
        lowest = lower(lowest, limit_of_line(rt, line));
    }
    lowest
}

// The rows of `/proc/self/limits` that limit memory: `ulimit -v` and `ulimit -d`.
const ADDRESS_SPACE: &str = "Max address space";

const DATA: &str = "Max data size";

// Returns the limit in a row of `/proc/self/limits`, in bytes. Returns `None` if the process has no such
// limit, or the file cannot be read.
fn process_limit(rt: &HostRuntime, row: &str) -> Option<u64> {
    let lines = fs::read_to_string(rt, "/proc/self/limits").ok()?;
    for line in lines.as_str().lines() {
        if let Some(rest) = line.strip_prefix(row) {
            return rest.split_whitespace().next()?.parse().ok();
        }
    }
    None
}

/// Returns the lowest limit of the process's memory in bytes: the limits of its control groups, its address
/// space and its data (`ulimit -d`). Returns `None` if the system reports no limit.
pub(crate) fn memory_limit(rt: &HostRuntime) -> Option<u64> {
    let process = lower(process_limit(rt, ADDRESS_SPACE), process_limit(rt, DATA));
    lower(group_limit(rt), process)
}

// Returns the part of a control group's limit that the volumes may take, in bytes: the limit without the part
// that is left for calls.
fn group_room(limit: u64) -> u64 {
    limit.saturating_sub(limit / 8).saturating_sub(CALL_BYTES)
}

/// Measures the memory that the process uses against the limits at which it is killed or an allocation fails.
pub(crate) struct MemoryGauge {
    rt: HostRuntime,
    address_space: Option<Limit>,
    resident: Option<Limit>,
}

impl Drop for MemoryGauge {
    fn drop(self) {
        let MemoryGauge {
            rt: _,
            address_space: _address_space,
            resident: _resident,
        } = self;
    }
}

impl MemoryGauge {
    /// Reads the current limits of the control groups of the process and of its address space. A limit that
    /// the system does not report is not applied. If the system does not report the memory in use, no limit
    /// is applied.
    pub(crate) fn new(rt: &HostRuntime) -> MemoryGauge {
        let Some(used) = used(rt) else {
            return MemoryGauge {
                rt: *rt,
                address_space: None,
                resident: None,
            };
        };
        let space = process_limit(rt, ADDRESS_SPACE).map(|most| most.saturating_sub(
            CALL_SPACE_BYTES,
        ));
        let resident = group_limit(rt).map(group_room);
        MemoryGauge {
            rt: *rt,
            address_space: space.map(|most| Limit::new(most, used.address_space)),
            resident: resident.map(|most| Limit::new(most, used.resident)),
        }
    }

    /// Returns true if there is memory for calls, and for the next opening of tables, which takes `opening`
    /// bytes. For the calls, the memory in use must be able to grow again as much as it grew since the last
    /// measurement. `new` makes the first measurement, and each use of this function a further one. Also
    /// returns true if no limit is known, or the memory in use cannot be measured.
    pub(crate) fn has_room(&self, opening: usize) -> bool {
        if self.address_space.is_none() && self.resident.is_none() {
            return true;
        }
        let Some(used) = used(&self.rt) else {
            return true;
        };
        let opening = opening as u64;
        has_room_in(&self.address_space, used.address_space, opening)
            && has_room_in(&self.resident, used.resident, opening)
    }
}

// Returns true if there is room below the limit, or there is no limit.
fn has_room_in(limit: &Option<Limit>, used: u64, opening: u64) -> bool {
    match limit {
        Some(limit) => limit.has_room(used, opening),
        None => true,
    }
}
