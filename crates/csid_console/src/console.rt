//! Writes lines on standard error without waiting. So calls are answered even if no program reads standard
//! error.

ghost use Rattle.std.specs.Prelude.{◌≡◌, ◌≤◌, ◌<◌, ◌^◌, IfSome};
ghost use Rattle.std.specs.Duration.{as_nanos};
ghost use Rattle.csid_console.specs.declared.console.TheConstants.{WAYS};

use crate::ready::{Way, is_ready};
use command_line::{Named, error_line};
use std::cell::Cell;
use std::fmt::{self, Display};
use std::io::Write;
use std::os::fd::AsRawFd;
use std::time::{Duration, Instant};

// The number of bytes that a pipe takes at once if it is ready for a write (`PIPE_BUF` of pipe(7)).
const PART: usize = 4096;

// The greatest number of lines about ended connections in one second. Further connections are only counted.
const FEW: u32 = 10;

const SECOND_MILLIS: u64 = 1000;

// The number of ways in which a connection ends: the variants of [`Ending`].
const WAYS: usize = 7;

/// The way in which a connection ended before all its calls were read and answered.
#[derive(Clone, Copy, PartialEq, Eq)]
pub enum Ending {
    /// The peer sent nothing, or took nothing of a reply, for too long. A peer may not wait between two calls
    /// at all while another connection is ready.
    Idle,
    /// The peer did not complete a call, or did not take a complete reply, in time.
    Slow,
    /// The peer had closed the connection before it was served.
    Gone,
    /// The connection had not sent a complete call, and was closed to make room: too many connections were
    /// waiting, or the system refused a further one.
    Crowded,
    /// The connection sent a malformed frame.
    Malformed,
    /// The connection delayed another connection for too long, during a call or a reply, or after the time of
    /// its turn.
    Preempted,
    /// The connection could not be read or written, memory was refused, or the limit of reads was reached.
    Failed,
}

const ENDINGS: [Ending; WAYS] = [
    Ending::Idle,
    Ending::Slow,
    Ending::Gone,
    Ending::Crowded,
    Ending::Malformed,
    Ending::Preempted,
    Ending::Failed,
];

impl Ending {
    // Returns the words for a count of connections that ended in this way.
    fn words(self) -> &'static str {
        match self {
            Ending::Idle => "sent nothing in time",
            Ending::Slow => "sent no whole call in time",
            Ending::Gone => "had gone",
            Ending::Crowded => "made room for others",
            Ending::Malformed => "sent a malformed frame",
            Ending::Preempted => "kept others waiting",
            Ending::Failed => "failed",
        }
    }

    // Returns the index of this way in an array of counts.
    fn place(self) -> usize
        ensures { result < WAYS }
    {
        match self {
            Ending::Idle => 0,
            Ending::Slow => 1,
            Ending::Gone => 2,
            Ending::Crowded => 3,
            Ending::Malformed => 4,
            Ending::Preempted => 5,
            Ending::Failed => 6,
        }
    }
}

// For each way of ending, the number of connections that ended without a line of their own.
#[derive(Clone, Copy)]
struct Tally {
    counts: [u64; WAYS],
}

impl Tally {
    fn total(&self) -> u64 {
        let mut total = 0u64;
        for count in &self.counts {
            total = total.saturating_add(*count);
        }
        total
    }
}

impl Display for Tally {
    fn fmt<W: fmt::Write>(&self, f: &mut fmt::Formatter<W>) -> fmt::Result {
        write!(f, "{} more connections ended", self.total())?;
        let mut mark = ':';
        for ending in ENDINGS {
            let count = self.counts[ending.place()];
            if count > 0 {
                write!(f, "{mark} {count} {}", ending.words())?;
                mark = ',';
            }
        }
        Ok(())
    }
}

/// Writes lines to standard error, and never waits.
#[derive(Drop)]
pub struct Console<'a> {
    /// The runtime of the program, through which lines are written.
    pub rt: &'a HostRuntime,
    // The number of lines that were dropped after the last line that was written.
    dropped: Cell<u64>,
    // The start of the second in which lines about connections are counted.
    second: Cell<Option<Instant>>,
    shown: Cell<u32>,
    tally: Cell<Tally>,
}

impl<'a> Console<'a> {
    /// Makes a console that has written no line, dropped no line and counted no connection.
    pub fn new(rt: &'a HostRuntime) -> Console<'a>
        ensures { result.rt.now ≡ rt.now }
    {
        Console {
            rt,
            dropped: Cell::new(0),
            second: Cell::new(None),
            shown: Cell::new(0),
            tally: Cell::new(Tally { counts: [0; WAYS] }),
        }
    }

    // Writes bytes if standard error takes them without waiting. Returns true if all bytes were written. If
    // the result is false, some of the bytes may have been written.
    fn write(&self, line: &[u8]) -> bool {
        let mut stderr = self.rt.stderr();
        for part in line.chunks(PART) {
            if !is_ready(stderr.as_raw_fd(), Way::Write) || stderr.write_all(part).is_err() {
                return false;
            }
        }
        true
    }

    // Writes a line if standard error takes it without waiting. If memory for the line is refused, writes
    // `out of memory` in its place. Returns true if the line was written completely.
    fn put<T: Display>(&self, what: &T) -> bool {
        match error_line(self.rt.alloc(), "csid", what) {
            Ok(line) => self.write(line.as_bytes()),
            Err(_) => self.write(b"csid: out of memory\n"),
        }
    }

    // Writes how many lines were dropped, if any. Returns true if another line may follow.
    fn catch_up(&self) -> bool {
        let dropped = self.dropped.get();
        if dropped == 0 {
            return true;
        }
        let has_caught_up = match format!(in self.rt.alloc();
            "{dropped} lines could not be written"
        ) {
            Ok(text) => self.put(&text),
            Err(_) => false,
        };
        if has_caught_up {
            self.dropped.set(0);
        }
        has_caught_up
    }

    /// Writes a line, which begins with the program's name. A line that cannot be written at once is dropped,
    /// though its beginning may have been written. The next line that can be written comes after a line with
    /// the number of dropped lines.
    pub fn say<T: Display>(&self, what: &T) {
        if !self.catch_up() || !self.put(what) {
            self.dropped.set(self.dropped.get().saturating_add(1));
        }
    }

    /// Writes a line about a file or another thing that has a name: its path or name, a colon, and then
    /// `what`. A line that cannot be written at once is dropped and counted.
    pub fn say_of<T: Display>(&self, path: &str, what: &T) {
        self.say(&Named { name: path, what });
    }

    // Returns the time until the end of the second, or `None` if no second has begun or it is over.
    fn left(&self, now: Instant) -> Option<Duration>
        ensures { IfSome result (λ left. as_nanos left ≤ 10 ^ 9) }
    {
        let begun = self.second.get()?;
        Duration::from_millis(SECOND_MILLIS).checked_sub(now.duration_since(begun))
    }

    /// Returns the time until the counts of ended connections are due to be written, at most a second, or
    /// `None` if no connection was counted.
    pub fn patience(&self, now: Instant) -> Option<Duration>
        ensures { IfSome result (λ left. as_nanos left ≤ 10 ^ 9) }
    {
        if self.tally.get().total() == 0 {
            return None;
        }
        Some(self.left(now).unwrap_or_default())
    }

    /// Writes how many connections ended without a line of their own, if any, and sets the counts to 0.
    pub fn finish(&self) {
        let tally = self.tally.get();
        if tally.total() > 0 {
            self.tally.set(Tally { counts: [0; WAYS] });
            self.say(&tally);
        }
    }

    /// Does nothing while the current second lasts. If it is over at `now`, or none has begun, begins a new
    /// second, and writes how many connections ended in the last one without a line of their own. If there
    /// are any, connections that end in the new second get no lines either: they are only counted.
    pub fn finish_second(&self, now: Instant) {
        if self.left(now).is_none() {
            self.shown.set(0);
            if self.tally.get().total() > 0 {
                self.finish();
                self.shown.set(FEW);
            }
            self.second.set(Some(now));
        }
    }

    // Counts a connection that ended in this way.
    fn count(&self, ending: Ending) {
        let mut tally = self.tally.get();
        let place = ending.place();
        tally.counts[place] = tally.counts[place].saturating_add(1);
        self.tally.set(tally);
    }

    /// Writes `what` as a line about a connection that ended. After ten such lines in one second, only counts
    /// the connection under its `ending`. The same holds in a second that follows a second with counts
    /// ([`Console::finish_second`]). [`Console::finish`] writes the counts, and so does the first call of
    /// this function or of `finish_second` after the second is over.
    pub fn report_end<T: Display>(&self, ending: Ending, now: Instant, what: &T) {
        self.finish_second(now);
        let shown = self.shown.get();
        if shown < FEW {
            self.shown.set(shown + 1);
            self.say(what);
        } else {
            self.count(ending);
        }
    }
}
