//! A name with a statement about the named thing, such as the path of a file and why it cannot be read.

use std::alloc::{AllocError, Global};
use std::fmt::{self, Display};

/// A name, such as the path of a file, and a statement about the named thing. Its `Display` is `NAME: WHAT`.
#[derive(Debug, Drop)]
pub struct Named<N, W> {
    /// The name of the thing, such as a path.
    pub name: N,
    /// The statement after the name and the colon.
    pub what: W,
}

impl<N: Display, W: Display> Display for Named<N, W> {
    fn fmt<F: fmt::Write>(&self, f: &mut fmt::Formatter<F>) -> fmt::Result {
        write!(f, "{}: {}", self.name, self.what)
    }
}

/// The name of a thing that failed, and the reason of the failure, as owned texts.
pub type Cause = Named<String, String>;

// Returns a name as a line shows it: `''` if it is empty, so that the line does not begin with its colon.
fn shown(name: &str) -> &str {
    if name.is_empty() { "''" } else { name }
}

/// Makes a [`Cause`] from a copy of `name`, or `''` if it is empty, and the text of `why`.
///
/// # Errors
///
/// If memory is refused.
pub fn cause<W: Display>(alloc: Global, name: &str, why: &W) -> Result<Cause, AllocError> {
    Ok(Named {
        name: String::from_str(alloc, shown(name))?,
        what: format!(in alloc; "{why}")?,
    })
}
