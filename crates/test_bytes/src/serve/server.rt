//! The two servers with which a stream is tried.

use super::compared::Served;
use super::fakes::{Pieces, Reader, Takes, Watch, Writer};
use super::kept::kept;
use csi_config::Config;
use csi_keeper::Keeper;
use csi_memory::MemKeeper;
use csi_server::{RunEnd, serve, serve_identity};
use std::alloc::Global;
use test_kit::RowFault;

// The greatest length of a name and of a version, in bytes.
const MAX_NAME_BYTES: usize = 128;

/// The service that answers the calls of a stream: the volume machine, or only the calls that identify a
/// plugin.
#[derive(Clone, Copy)]
pub(crate) enum Server<'a> {
    /// Serves the calls of all methods, under this configuration.
    Volumes(&'a Config),
    /// Serves only `Probe` and `GetPluginInfo`, with this name and version of the plugin.
    Identity { name: &'a str, version: &'a str },
}

impl Server<'_> {
    /// Serves a stream over a new keeper in memory, and returns the outcome.
    ///
    /// # Errors
    ///
    /// - the name or the version is longer than 128 bytes
    /// - the server reads after a fault or a failed write
    /// - memory is refused outside the run
    pub(crate) fn run(
        self,
        alloc: Global,
        pieces: Pieces<'_>,
        takes: Takes,
    ) -> Result<Served, RowFault> {
        let mut keeper = MemKeeper::new(alloc, 1)?;
        self.run_on(alloc, &mut keeper, pieces, takes)
    }

    /// Serves a stream over a keeper, and returns the outcome with the keeper's State after the run.
    ///
    /// # Errors
    ///
    /// - the name or the version is longer than 128 bytes
    /// - the server reads after a fault or a failed write
    /// - memory is refused after the run
    pub(crate) fn run_on<K: Keeper>(
        self,
        alloc: Global,
        keeper: &mut K,
        pieces: Pieces<'_>,
        takes: Takes,
    ) -> Result<Served, RowFault> {
        let (end, written) = self.run_over(alloc, keeper, pieces, takes)?;
        Ok(Served {
            end,
            written,
            kept: kept(alloc, keeper)?,
        })
    }

    /// Serves a stream over a keeper. Returns how the run ended, and the bytes that the server wrote.
    ///
    /// # Errors
    ///
    /// - the name or the version is longer than 128 bytes
    /// - the server reads after a fault or a failed write
    pub(crate) fn run_over<K: Keeper>(
        self,
        alloc: Global,
        keeper: &mut K,
        pieces: Pieces<'_>,
        takes: Takes,
    ) -> Result<(RunEnd, Vec<u8>), RowFault> {
        let watch = Watch::new();
        let mut reader = Reader::new(pieces, &watch);
        let mut writer = Writer::new(alloc, takes, &watch);
        let end = match self {
            Server::Volumes(config) => serve(alloc, config, keeper, &mut reader, &mut writer),
            Server::Identity { name, version } => {
                if name.len() > MAX_NAME_BYTES || version.len() > MAX_NAME_BYTES {
                    return Err(RowFault::NotRow);
                }
                serve_identity(alloc, name, version, &mut reader, &mut writer)
            }
        };
        if watch.has_read_on() {
            return Err(RowFault::Refused("it read on after a fault or a failed write"));
        }
        Ok((end, writer.into_bytes()))
    }
}
