//! The first run of a server over a file of tables. It opens and checks the tables, makes missing tables if
//! the options allow it, and reports the counts of the tables. A connection that is ready by then is served
//! over this opening.

ghost use Rattle.std.specs.Prelude.{[], Some};
ghost use Rattle.std.specs.Fmt.{option_append};
ghost use Rattle.csid.specs.Serving.{IsServed};

use crate::serving::{TablesFailure, TablesRun};
use crate::socket::{Announcer, Service, report_run, turn_of, with_call};
use csi_adoption::Content;
use csi_files::{Observer, RunReport};
use csid_connections::{Turn, Waiting};
use csid_listings::Content as ContentLine;
use csid_settings::TablesFile;
use sqlite::{Error, Start, Unknown};
use std::cell::{Cell, OnceCell};
use std::io::{self, Read, Write};
use std::time::Instant;

// The first run of a server. It also observes the run and reports its steps.
#[derive(Drop)]
struct FirstRun<'a> {
    service: &'a Service<'a>,
    file: TablesFile<'a>,
    announcer: Announcer<'a>,
    // The queue of connections, until the tables are adopted.
    waiting: Cell<Option<&'a mut Waiting>>,
    // The turn of the connection that was ready when the tables were adopted, if there was one.
    turn: OnceCell<Turn<'a>>,
    // The counts of the tables, until they are reported.
    content: Cell<Option<Content>>,
}

impl<'a> FirstRun<'a> {
    // Makes a run over the tables in a file, before it is opened.
    fn new(
        service: &'a Service<'a>,
        file: TablesFile<'a>,
        waiting: &'a mut Waiting,
    ) -> FirstRun<'a> {
        let waiting = Cell::new(Some(waiting));
        let turn = OnceCell::new();
        FirstRun {
            service,
            file,
            announcer: Announcer::new(service, file.path),
            waiting,
            turn,
            content: Cell::new(None),
        }
    }

    // Begins the turn of a connection that is ready and has sent a call, if there is one. An error of the
    // socket is ignored here; it is reported when the server waits for the next connection.
    fn begin_turn(&self) {
        let console = self.service.console;
        let Some(waiting) = self.waiting.take() else {
            return;
        };
        let Ok(now) = Instant::now(console.rt) else {
            return;
        };
        let _ = waiting.look(console, now);
        let Some(ready) = waiting.pop_ready() else {
            return;
        };
        let Some(peer) = with_call(self.service, waiting, ready) else {
            return;
        };
        if let Some(turn) = turn_of(console, waiting, peer) {
            let _ = self.turn.set(turn);
        }
    }

    // Reports the counts of the tables, unless they were reported.
    fn report_content(&self) {
        if let Some(content) = self.content.take() {
            let line = ContentLine::of_adopted(&content);
            self.service.console.say_of(self.file.path, &line);
        }
    }

    // Opens the tables, and serves the calls from the reader. `start` stands for the content of the file and
    // its WAL in the contract.
    fn serve<S: Start, R: Read, W: Write>(
        &self,
        start: S,
        reader: &mut R,
        writer: &mut W,
    ) -> Result<RunReport, TablesFailure>
        ensures { IsServed S.Start self.now.service.now.config.now self.now.file
            (option_append (Some []) (R.remaining reader.old))
            (W.contents writer.old) (W.contents writer.new) result }
    {
        let run = TablesRun {
            rt: *self.service.console.rt,
            config: self.service.config,
            file: self.file,
            observer: self,
        };
        run.serve_file(start, &[], reader, writer)
    }

    // Makes the run over the calls from the reader, and reports how it ended. If no connection was served,
    // the file is closed before the counts are reported.
    fn serve_and_report<R: Read, W: Write>(&self, reader: &mut R, writer: &mut W) {
        let ended = self.serve(Unknown, reader, writer);
        let ending = self.turn.get().and_then(|turn| turn.ending.get());
        report_run(self.service.console, self.file.path, ending, ended);
        self.report_content();
    }

    // Makes the run over the calls of the connection that is ready when the tables are adopted.
    fn finish(&self) {
        let mut reader = FirstReader {
            run: self,
            taken: 0,
        };
        self.serve_and_report(&mut reader, &mut FirstWriter { run: self });
    }
}

impl Observer for FirstRun<'_> {
    fn made(&self) {
        self.announcer.made();
    }

    fn adopted(&self, content: &Content) {
        self.content.set(Some(*content));
        self.begin_turn();
        if self.turn.get().is_some() {
            self.report_content();
        }
    }

    fn uncopied(&self) {
        if self.turn.get().is_some() {
            self.announcer.uncopied();
        }
    }

    fn refused(&self, cause: &Error) {
        self.announcer.refused(cause);
    }

    // Without a connection no call is served, and a copy of the volumes would be made in vain.
    fn has_room(&self, opening: usize) -> bool {
        self.turn.get().is_some() && self.announcer.has_room(opening)
    }
}

// Reads the calls of the connection that the first run serves. If the run serves no connection, there is no
// call.
#[derive(Drop)]
struct FirstReader<'r, 'a> {
    run: &'r FirstRun<'a>,
    // The number of bytes read so far of those that came while the connection was in the queue.
    taken: usize,
}

impl Read for FirstReader<'_, '_> {
    fn read(&mut self, buf: &mut [u8]) -> io::Result<usize> {
        let Some(turn) = self.run.turn.get() else {
            return Ok(0);
        };
        let sent = turn.peer.first.sent.as_slice();
        if self.taken >= sent.len() {
            return turn.reader().read(buf);
        }
        let mut rest = sent.split_at(self.taken).1;
        let count = rest.read(buf)?;
        self.taken += count;
        Ok(count)
    }
}

// Writes the replies of the connection that the first run serves.
#[derive(Drop)]
struct FirstWriter<'r, 'a> {
    run: &'r FirstRun<'a>,
}

impl Write for FirstWriter<'_, '_> {
    fn write(&mut self, buf: &[u8]) -> io::Result<usize> {
        match self.run.turn.get() {
            Some(turn) => turn.writer().write(buf),
            None => Ok(buf.len()),
        }
    }

    fn flush(&mut self) -> io::Result<()> {
        match self.run.turn.get() {
            Some(turn) => turn.writer().flush(),
            None => Ok(()),
        }
    }
}

/// Opens and checks the tables in a file at the start of a server. If the file has no tables, they are made
/// unless `file.is_existing` is true. If a connection is ready by then, its calls are answered over this
/// opening. Reports the counts of the tables (volumes, attachments, next number and format), or the reason
/// why the tables cannot be opened. If the file cannot be closed, also reports the reason for that.
pub(crate) fn serve_first<'a>(
    service: &'a Service<'a>,
    waiting: &'a mut Waiting,
    file: TablesFile<'a>,
) {
    FirstRun::new(service, file, waiting).finish();
}
