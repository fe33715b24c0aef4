//! A stream of calls, and its wanted outcome.

use std::alloc::{AllocError, Global};

/// A call of a stream: the offset at which its frame ends in the input, and the offset at which its reply
/// ends in the output.
#[derive(Clone, Copy)]
pub(crate) struct Call {
    pub(crate) frame_end: usize,
    pub(crate) reply_end: usize,
    /// True if the server asks the store to answer the call.
    pub(crate) asks: bool,
}

/// The fault that ends a stream, and the reply that the server must write for it.
#[derive(Drop)]
pub(crate) struct StreamFault {
    pub(crate) text: String,
    /// The number of bytes of the input after which the fault is known.
    pub(crate) known_at: usize,
    /// The reply frame that answers the fault.
    pub(crate) frame: Vec<u8>,
}

/// A stream of calls, with or without a fault after them. `input` has the bytes to serve, and `output` the
/// wanted replies to the calls.
pub(crate) struct Stream {
    pub(crate) input: Vec<u8>,
    pub(crate) output: Vec<u8>,
    pub(crate) calls: Vec<Call>,
    pub(crate) fault: Option<StreamFault>,
}

impl Drop for Stream {
    fn drop(self) {
        let Stream {
            input: _input,
            output: _output,
            calls: _calls,
            fault: _fault,
        } = self;
    }
}

impl Stream {
    /// Makes a stream without calls and without a fault.
    pub(crate) fn new(alloc: Global) -> Stream {
        Stream {
            input: Vec::new(alloc),
            output: Vec::new(alloc),
            calls: Vec::new(alloc),
            fault: None,
        }
    }

    /// Appends the frame of a call to the input, and its wanted reply to the output.
    pub(crate) fn put_call(
        &mut self,
        asks: bool,
        frame: &[u8],
        reply: &[u8],
    ) -> Result<(), AllocError> {
        self.input.extend_from_slice(frame)?;
        self.output.extend_from_slice(reply)?;
        self.calls.push(Call {
            frame_end: self.input.len(),
            reply_end: self.output.len(),
            asks,
        })?;
        Ok(())
    }

    /// Appends bytes to the input. The last of these bytes shows a fault with this text.
    pub(crate) fn put_fault(
        &mut self,
        alloc: Global,
        text: &str,
        bytes: &[u8],
    ) -> Result<(), AllocError> {
        self.input.extend_from_slice(bytes)?;
        self.fault = Some(fault_of(alloc, text, self.input.len())?);
        Ok(())
    }

    /// Appends bytes to the input after a fault. The server must not answer them.
    pub(crate) fn put_after(&mut self, bytes: &[u8]) -> Result<(), AllocError> {
        self.input.extend_from_slice(bytes)?;
        Ok(())
    }

    /// Returns the number of calls whose complete frame is in the first `bytes` bytes of the input.
    pub(crate) fn calls_within(&self, bytes: usize) -> usize {
        self.calls
            .iter()
            .take_while(|call| call.frame_end <= bytes)
            .count()
    }

    /// Returns the offsets at which the first `calls` calls end: after their frames in the input, and after
    /// their replies in the output.
    pub(crate) fn ends_of(&self, calls: usize) -> (usize, usize) {
        let last = calls.checked_sub(1).and_then(|last| self.calls.get(last));
        match last {
            Some(call) => (call.frame_end, call.reply_end),
            None => (0, 0),
        }
    }

    /// Returns the replies to the first `calls` calls.
    pub(crate) fn replies(&self, calls: usize) -> &[u8] {
        let (_, end) = self.ends_of(calls);
        self.output.get(..end).unwrap_or(&[])
    }

    /// Returns the reply to the call with this index, counted from 0. For the index after the last call,
    /// returns the frame that answers the fault, or no bytes if the stream has no fault.
    pub(crate) fn reply(&self, call: usize) -> &[u8] {
        if call == self.calls.len() {
            return self.fault_frame();
        }
        let (_, start) = self.ends_of(call);
        let (_, end) = self.ends_of(call.saturating_add(1));
        self.output.get(start..end).unwrap_or(&[])
    }

    /// Returns the frame that answers the fault, or no bytes if the stream has no fault.
    pub(crate) fn fault_frame(&self) -> &[u8] {
        match &self.fault {
            Some(fault) => fault.frame.as_slice(),
            None => &[],
        }
    }

    /// Returns the number of bytes of the input after which the fault is known, or `None` if the stream has
    /// no fault.
    pub(crate) fn fault_known_at(&self) -> Option<usize> {
        match &self.fault {
            Some(fault) => Some(fault.known_at),
            None => None,
        }
    }

    /// Returns true if the first `bytes` bytes of the input make the fault known. Returns false if the stream
    /// has no fault.
    pub(crate) fn is_faulty_within(&self, bytes: usize) -> bool {
        match self.fault_known_at() {
            Some(known_at) => known_at <= bytes,
            None => false,
        }
    }
}

fn fault_of(alloc: Global, text: &str, known_at: usize) -> Result<StreamFault, AllocError> {
    Ok(StreamFault {
        text: String::from_str(alloc, text)?,
        known_at,
        frame: refusal(alloc, text)?,
    })
}

/// Returns the reply frame that answers a fault: the status 3, this text, and no body.
pub(crate) fn refusal(alloc: Global, text: &str) -> Result<Vec<u8>, AllocError> {
    let length = u16::try_from(text.len()).unwrap_or(u16::MAX);
    let mut frame = Vec::from_slice(alloc, &[3])?;
    frame.extend_from_slice(&length.to_be_bytes())?;
    frame.extend_from_slice(text.as_bytes())?;
    frame.extend_from_slice(&[0; 5])?;
    Ok(frame)
}
