//! Answers rows that are requests to the volume machine. They are made one after the other over one keeper in
//! memory, until a row `begin` makes a new keeper.

use crate::words::{first_word, named};
use csi_config::Config;
use csi_keeper::Keeper;
use csi_memory::MemKeeper;
use csi_types::{Method, Text};
use std::alloc::Global;
use test_kit::{
    AnswerRow, Reply, RowAnswer, RowFault, bytes_counted, bytes_of, config_with, number_of,
    reply_to,
};

/// A configuration and a keeper in memory, over which the requests of rows are made.
pub(crate) struct Bench {
    pub(crate) config: Config,
    pub(crate) keeper: MemKeeper,
}

impl Drop for Bench {
    fn drop(self) {
        let Bench {
            config: _config,
            keeper: _keeper,
        } = self;
    }
}

impl Bench {
    /// Makes a bench of the sample configuration and a keeper without volumes, whose first volume gets the
    /// number 1.
    pub(crate) fn new(alloc: Global) -> Result<Bench, RowFault> {
        Ok(Bench {
            config: Config::sample(alloc)?,
            keeper: MemKeeper::new(alloc, 1)?,
        })
    }

    fn answer(&mut self, alloc: Global, row: &str) -> Result<String, RowFault> {
        let (word, rest) = first_word(row)?;
        match word {
            "begin" => self.begin(alloc, rest),
            "many" => self.answer_many(alloc, rest),
            "count" => self.count(alloc, rest),
            "list" => {
                let reply = self.reply(alloc, Method::ListVolumes, &bytes_of(alloc, rest)?);
                reply.page_text(alloc)
            }
            _ => {
                let method = named(alloc, word)?;
                self.reply(alloc, method, &bytes_of(alloc, rest)?)
                    .text(alloc)
            }
        }
    }

    fn reply(&mut self, alloc: Global, method: Method, message: &[u8]) -> Reply {
        reply_to(alloc, &self.config, &mut self.keeper, method, message)
    }

    // Returns the keeper's count of the volumes at a node.
    fn count(&mut self, alloc: Global, node: &str) -> Result<String, RowFault> {
        let node = Text::from_str(alloc, node)?;
        let count = self.keeper.count_at(alloc, &node)?;
        Ok(format!(in alloc; "{count}")?)
    }

    // Begins again, with the configuration that the words name and a new keeper without volumes.
    fn begin(&mut self, alloc: Global, words: &str) -> Result<String, RowFault> {
        let bench = begun(alloc, words)?;
        *self = bench;
        Ok(String::from_str(alloc, "begun")?)
    }

    // Makes a request many times. The answer has the number of requests that succeeded, and the last reply
    // that was a refusal, or `no other` if no request was refused.
    fn answer_many(&mut self, alloc: Global, words: &str) -> Result<String, RowFault> {
        let (times, rest) = first_word(words)?;
        let (name, notation) = first_word(rest)?;
        let method = named(alloc, name)?;
        let mut done: u32 = 0;
        let mut last = String::from_str(alloc, "no other")?;
        for count in 0..number_of::<u32>(times)? {
            let reply = self.reply(alloc, method, &bytes_counted(alloc, notation, count)?);
            match &reply {
                Reply::Done(_) => done = done.saturating_add(1),
                refused => last = refused.text(alloc)?,
            }
        }
        Ok(format!(in alloc; "{done} done, {last}")?)
    }
}

impl AnswerRow for Bench {
    fn answer_row(&mut self, rt: &HostRuntime, row: &str) -> Result<RowAnswer, RowFault> {
        Ok(RowAnswer::Text(self.answer(rt.alloc(), row)?))
    }
}

// Makes a bench of the configuration that the first word names. The first volume of its keeper gets the
// number in the second word, or 1 without a second word.
fn begun(alloc: Global, words: &str) -> Result<Bench, RowFault> {
    let (name, first) = words.split_once(' ').unwrap_or((words, "1"));
    let first: u64 = number_of(first)?;
    if first == 0 || first > 1 << 62 {
        return Err(RowFault::NotRow);
    }
    Ok(Bench {
        config: config_of(alloc, name)?,
        keeper: MemKeeper::new(alloc, first)?,
    })
}

fn config_of(alloc: Global, name: &str) -> Result<Config, RowFault> {
    match name {
        "sample" => Ok(Config::sample(alloc)?),
        "wide" => config_with(alloc, &["p", "134217728"]),
        "huge" => config_with(alloc, &["p", "4611686018427387904"]),
        _ => Err(RowFault::NotRow),
    }
}
