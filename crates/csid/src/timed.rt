//! A connection to a change store that bounds the time of each exchange and of an opening, however slowly the
//! bytes come.

use std::cell::Cell;
use std::io::{self, ErrorKind, Read, Write};
use std::os::unix::net::UnixStream;
use std::rc::Rc;
use std::time::{Duration, Instant};

// The greatest number of seconds for sending a frame and receiving its complete reply. After this time the
// exchange fails, and it is unknown if the change store made the change of the frame.
const EXCHANGE_SECONDS: u64 = 30;

// The greatest number of seconds for reading all rows in an opening. Each page of rows is an exchange of its
// own, so many slow exchanges could otherwise delay the server for very long.
const ROWS_SECONDS: u64 = 300;

/// The deadlines of a connection to a change store: for the current exchange, and for the opening.
pub(crate) struct Deadline {
    rt: HostRuntime,
    // The deadline of the current exchange. `None` if no exchange has begun, or the clock could not be read
    // when it began.
    exchange: Cell<Option<Instant>>,
    // The deadline of the opening, or `None` after all rows were read.
    rows: Cell<Option<Instant>>,
}

impl Drop for Deadline {
    fn drop(self) {
        let Deadline {
            rt: _,
            exchange: _,
            rows: _,
        } = self;
    }
}

// Returns the time this number of seconds from now.
fn after(rt: &HostRuntime, seconds: u64) -> io::Result<Instant> {
    let now = Instant::now(rt)?;
    Ok(now.checked_add(Duration::from_secs(seconds)).unwrap_or(now))
}

impl Deadline {
    /// Begins an opening of a change store. Its deadline is 300 seconds from now: all rows must be read by
    /// then.
    ///
    /// # Errors
    ///
    /// If the clock cannot be read.
    pub(crate) fn new(rt: &HostRuntime) -> io::Result<Deadline> {
        Ok(Deadline {
            rt: *rt,
            exchange: Cell::new(None),
            rows: Cell::new(Some(after(rt, ROWS_SECONDS)?)),
        })
    }

    /// Begins an exchange, whose deadline is 30 seconds from now. During an opening, the deadline of the
    /// opening counts if it is earlier. If the clock cannot be read, the reads and writes of the exchange
    /// fail.
    pub(crate) fn begin_exchange(&self) {
        self.exchange.set(after(&self.rt, EXCHANGE_SECONDS).ok());
    }

    /// Ends the deadline of the opening, after all rows were read. Each exchange still has its deadline.
    pub(crate) fn end_rows(&self) {
        self.rows.set(None);
    }

    // Returns the time until the earlier of the two deadlines, at least a microsecond. Fails if this deadline
    // has passed or no exchange has begun.
    fn left(&self) -> io::Result<Duration> {
        let now = Instant::now(&self.rt)?;
        let Some(exchange) = self.exchange.get() else {
            return Err(io::Error::from(ErrorKind::TimedOut));
        };
        let until = match self.rows.get() {
            Some(rows) if rows < exchange => rows,
            _ => exchange,
        };
        let left = until.saturating_duration_since(now);
        if left < Duration::from_micros(1) {
            return Err(io::Error::from(ErrorKind::TimedOut));
        }
        Ok(left)
    }
}

/// A connection whose reads and writes fail after its deadline has passed, and before its first exchange
/// begins.
pub(crate) struct TimedStream {
    stream: UnixStream,
    deadline: Rc<Deadline>,
}

impl Drop for TimedStream {
    fn drop(self) {
        let TimedStream {
            stream: _stream,
            deadline: _deadline,
        } = self;
    }
}

impl TimedStream {
    /// Connects to a socket. After the deadline has passed, reads and writes of the connection fail. The
    /// deadline does not bound how long connecting takes.
    ///
    /// # Errors
    ///
    /// If no program listens at `path`, the system refuses the connection, or memory is refused.
    pub(crate) fn connect(
        rt: &HostRuntime,
        path: &str,
        deadline: Rc<Deadline>,
    ) -> io::Result<TimedStream> {
        Ok(TimedStream {
            stream: UnixStream::connect(rt, path)?,
            deadline,
        })
    }

    /// Returns a second handle of the same connection, with the same deadline.
    ///
    /// # Errors
    ///
    /// If the system refuses the handle, or memory is refused.
    pub(crate) fn try_clone(&self) -> io::Result<TimedStream> {
        Ok(TimedStream {
            stream: self.stream.try_clone()?,
            deadline: self.deadline.clone()?,
        })
    }

    /// Returns the deadlines of the connection, which all of its handles share.
    pub(crate) fn deadline(&self) -> &Deadline {
        &self.deadline
    }
}

impl Read for &TimedStream {
    fn read(&mut self, buf: &mut [u8]) -> io::Result<usize> {
        let mut stream = &self.stream;
        stream.set_read_timeout(Some(self.deadline.left()?))?;
        stream.read(buf)
    }
}

impl Write for &TimedStream {
    fn write(&mut self, buf: &[u8]) -> io::Result<usize> {
        let mut stream = &self.stream;
        stream.set_write_timeout(Some(self.deadline.left()?))?;
        stream.write(buf)
    }

    fn flush(&mut self) -> io::Result<()> {
        let mut stream = &self.stream;
        stream.flush()
    }
}

impl Read for TimedStream {
    fn read(&mut self, buf: &mut [u8]) -> io::Result<usize> {
        let mut stream = &*self;
        stream.read(buf)
    }
}

impl Write for TimedStream {
    fn write(&mut self, buf: &[u8]) -> io::Result<usize> {
        let mut stream = &*self;
        stream.write(buf)
    }

    fn flush(&mut self) -> io::Result<()> {
        let mut stream = &*self;
        stream.flush()
    }
}
