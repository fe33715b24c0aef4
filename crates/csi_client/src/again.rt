//! Sends a call again until it is answered.

ghost use Rattle.std.specs.Prelude.{◌≡◌, ◌≤◌, ◌<◌, ◌+◌, ◌-◌, ◌/◌, ◌^◌, List, ℕ, true};
ghost use Rattle.csi_client.specs.declared.receiving.Received.{Received};
ghost use Rattle.csi_client.specs.Again.{is_unanswered, unanswered_count, answered_count, IsSentAgain, longest_pause, pause};

use crate::receiving::Received;
use envelope::ReplyWhy;

/// A client's line to a server. In each exchange, the line sends one frame and waits for its reply.
pub trait Line {
    // The number of exchanges made so far.
    ghost exchanges: { Self → ℕ };

    // The number of exchanges so far that got no answer.
    ghost unanswered: { Self → ℕ };

    // The effect of one exchange: the line before and after the exchange, the frame and the received reply.
    // Only this relation mentions the frame, so a line for which it holds has sent the frame.
    ghost exchanged: { Self → Self → List ℕ → Received → Type 0 };

    /// Sends a call's frame and waits for the reply. The line may use a new connection, or a connection on
    /// which the last exchange got a reply. Returns [`Received::Failed`] if it cannot connect or send.
    ///
    /// The line counts its exchanges, and the exchanges that got no answer.
    fn exchange(&mut self, frame: &[u8]) -> Received
        requires { exchanges self.old < 2 ^ 64 - 1 }
        ensures made { exchanges self.new ≡ exchanges self.old + 1 }
        ensures unanswered { unanswered self.new ≡ unanswered self.old + unanswered_count result }
        ensures sent { exchanged self.old self.new frame.now result };
}

/// Returns true if the client cannot know if the server executed the call: the connection failed, or it ended
/// before the complete reply. A complete reply is an answer, even if it is malformed. [`Received::NoMemory`]
/// counts as an answer too, since sending the call again would not help.
pub fn is_unanswered(received: &Received) -> bool
    ensures { result ≡ is_unanswered received.now }
{
    match received {
        Received::Nothing | Received::Failed => true,
        Received::Malformed(fault) => fault.why == ReplyWhy::EndOfInput,
        Received::Reply(_) | Received::NoMemory => false,
    }
}

/// The counts that a [`Line`] keeps: of all its exchanges, and of the exchanges that got no answer.
#[derive(Clone, Copy, Debug)]
pub struct Exchanges {
    /// The number of exchanges, with and without an answer.
    pub made: u64,
    /// The number of exchanges that got no answer.
    pub unanswered: u64,
    ghost within: { unanswered ≤ made },
}

impl Exchanges {
    /// Returns the counts before the first exchange: both are 0.
    pub fn none() -> Exchanges
        ensures made { result.made ≡ 0 }
        ensures unanswered { result.unanswered ≡ 0 }
    {
        Exchanges {
            made: 0,
            unanswered: 0,
        }
    }

    /// Counts one more exchange, whose outcome is `received`.
    pub fn count(&mut self, received: &Received)
        requires { self.old.made < 2 ^ 64 - 1 }
        ensures made { self.new.made ≡ self.old.made + 1 }
        ensures unanswered { self.new.unanswered ≡ self.old.unanswered + unanswered_count received.now }
    {
        *self = Exchanges {
            made: self.made + 1,
            unanswered: self.unanswered + u64::from(is_unanswered(received)),
        };
    }
}

/// Sends a call's frame until an exchange gets an answer ([`is_unanswered`] returns false). `tries` is the
/// greatest number of exchanges, 1 to 10. Returns the outcome of the last exchange.
///
/// Each call of the Container Storage Interface may be sent again: a server that has made the change of the
/// call does not make it a second time (CSI specification, 'Timeouts').
pub fn call_again<L: Line>(line: &mut L, frame: &[u8], tries: u32) -> Received
    requires few { L.exchanges line.old < 2 ^ 63 }
    requires least { 1 ≤ tries }
    requires most { tries ≤ 10 }
    ensures made { L.exchanges line.old + 1 ≤ L.exchanges line.new }
    ensures bounded { L.exchanges line.new ≤ L.exchanges line.old + tries }
    ensures once { L.exchanges line.new + L.unanswered line.old
        ≡ L.exchanges line.old + L.unanswered line.new + answered_count result }
    ensures sent { IsSentAgain L.exchanged line.old line.new frame.now tries result }
    ensures given_up { is_unanswered result ≡ true → L.exchanges line.new ≡ L.exchanges line.old + tries }
{
    for tried in 1..tries {
        let received = line.exchange(frame);
        if !is_unanswered(&received) {
            return received;
        }
    }
    line.exchange(frame)
}

// Returns the longest pause after `tried` tries, in milliseconds: 100 after the first try, and twice as long
// after each further try, up to 2,000.
fn longest_pause(tried: u32) -> u64
    ensures { result ≡ longest_pause tried }
{
    let doubled = 2_u64.saturating_pow(tried.saturating_sub(1));
    doubled.saturating_mul(100).min(2000)
}

/// Returns the pause after `tried` tries, in milliseconds. The upper limit of the pause is 100 after the
/// first try and doubles after each further try, up to 2,000. The pause is at least half of this limit, and
/// `chance` selects how much of the other half is added. So clients that failed at the same time do not try
/// again at the same time.
pub fn pause_millis(tried: u32, chance: u32) -> u64
    ensures least { longest_pause tried / 2 ≤ result }
    ensures most { result ≤ longest_pause tried }
    ensures chosen { result ≡ pause tried chance }
{
    let half = longest_pause(tried) / 2;
    half + u64::from(chance) % (half + 1)
}
