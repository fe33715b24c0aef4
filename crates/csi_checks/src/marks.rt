//! Computes the marks of topologies: hashes that a peer cannot choose.
//!
//! The hasher of a list starts from the digest of the whole list, so a topology has another mark in another
//! list. If a peer tries one list after another, the marks look like random numbers.

use csi_types::{Map, Text};
use sha2::{Digest, Sha256};
use std::hash::{DefaultHasher, Hasher};

/// Returns a hasher that starts from the SHA-256 digest of all the topologies.
pub(crate) fn begun_by(topologies: &[Map]) -> DefaultHasher {
    let mut digest = Sha256::new();
    for topology in topologies {
        put_length(&mut digest, topology.len());
        for (key, value) in topology.iter() {
            put_text(&mut digest, key);
            put_text(&mut digest, value);
        }
    }
    let mut hasher = DefaultHasher::new();
    hasher.write(&digest.finalize());
    hasher
}

fn put_text(digest: &mut Sha256, text: &Text) {
    put_length(digest, text.len());
    digest.update(text.as_bytes());
}

// Adds a length to the digest. Each length is added before the bytes that it counts, so different lists give
// different bytes.
fn put_length(digest: &mut Sha256, length: usize) {
    digest.update(&length.to_le_bytes());
}

/// Returns the mark of a topology. Topologies that differ only in the case of ASCII letters in keys have the
/// same mark.
pub(crate) fn mark_of_topology(begun: DefaultHasher, topology: &Map) -> u64 {
    // The entries may come in any order, so their marks are added.
    let mut mark: u64 = 0;
    for (key, value) in topology.iter() {
        mark = mark.wrapping_add(mark_of_entry(begun, key, value));
    }
    mark
}

// Returns the hash of three parts: the key in lower case, a byte that no text has, and the value.
fn mark_of_entry(begun: DefaultHasher, key: &Text, value: &Text) -> u64 {
    let mut hasher = begun;
    for byte in key.as_bytes() {
        hasher.write(&[byte.to_ascii_lowercase()]);
    }
    hasher.write(&[0xff]);
    hasher.write(value.as_bytes());
    hasher.finish()
}
