//! Parses access modes by their names.

use command_line::is_decimal;

// A name of an access mode, and the number of the mode.
#[derive(Clone, Copy)]
struct Name {
    text: &'static str,
    mode: i32,
}

// The names of access modes: the names of the CSI specification ('CreateVolume'), in capital letters and with
// hyphens, and the long and short names of Kubernetes.
const NAMES: [Name; 22] = [
    Name {
        text: "single-node-writer",
        mode: 1,
    },
    Name {
        text: "single-node-reader-only",
        mode: 2,
    },
    Name {
        text: "multi-node-reader-only",
        mode: 3,
    },
    Name {
        text: "multi-node-single-writer",
        mode: 4,
    },
    Name {
        text: "multi-node-multi-writer",
        mode: 5,
    },
    Name {
        text: "single-node-single-writer",
        mode: 6,
    },
    Name {
        text: "single-node-multi-writer",
        mode: 7,
    },
    Name {
        text: "SINGLE_NODE_WRITER",
        mode: 1,
    },
    Name {
        text: "SINGLE_NODE_READER_ONLY",
        mode: 2,
    },
    Name {
        text: "MULTI_NODE_READER_ONLY",
        mode: 3,
    },
    Name {
        text: "MULTI_NODE_SINGLE_WRITER",
        mode: 4,
    },
    Name {
        text: "MULTI_NODE_MULTI_WRITER",
        mode: 5,
    },
    Name {
        text: "SINGLE_NODE_SINGLE_WRITER",
        mode: 6,
    },
    Name {
        text: "SINGLE_NODE_MULTI_WRITER",
        mode: 7,
    },
    Name {
        text: "ReadOnlyMany",
        mode: 3,
    },
    Name {
        text: "ROX",
        mode: 3,
    },
    Name {
        text: "ReadWriteMany",
        mode: 5,
    },
    Name {
        text: "RWX",
        mode: 5,
    },
    Name {
        text: "ReadWriteOncePod",
        mode: 6,
    },
    Name {
        text: "RWOP",
        mode: 6,
    },
    Name {
        text: "ReadWriteOnce",
        mode: 7,
    },
    Name {
        text: "RWO",
        mode: 7,
    },
];

/// Returns the number of the access mode with this name, ignoring the case of ASCII letters. If the text is a
/// decimal number that fits an `i32`, returns this number, even if no mode has it. Returns `None` for any
/// other text.
pub(crate) fn mode_of(text: &str) -> Option<i32> {
    for name in &NAMES {
        if text.eq_ignore_ascii_case(name.text) {
            return Some(name.mode);
        }
    }
    if is_decimal(text) {
        return text.parse::<i32>().ok();
    }
    None
}
