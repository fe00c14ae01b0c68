//! Endpoints of one queue share what they have seen.
ghost use Rattle.std.specs.Prelude.{◌≡◌};
ghost use Rattle.cq_endpoint.specs.Meetings.{EndpointsMet, Exchanges};
ghost use Rattle.cq_words.specs.Values.{IsOf};

use crate::endpoint::Endpoint;
use cq_words::Caller;

impl Endpoint {
    /// Lets two endpoints share what they have seen. Afterwards both tailers, and those of the appenders that have begun
    /// no message, have seen one history. It begins with what each of these had seen, and its end is at least the end
    /// that each had seen. So one may drop cycles or move names up to the end that the other has seen.
    ///
    /// An appender that has begun a message takes no part: it stays as it was, and what it had seen is not shared. The
    /// tailers stay where they are. No event is added, and it is never refused. What each knew of index entries, of write
    /// positions and of the seal it still knows, so what it published stays published, and what is closed stays closed.
    ///
    /// Precondition: both are of one queue, as two endpoints are of which one was split off the other.
    pub fn meet(&mut self, other: &mut Endpoint)
        requires { other.old.queue ≡ self.old.queue }
        ensures { EndpointsMet self.old other.old self.new other.new }
    {
        let mut note = self.queue.split(&mut self.parent);
        self.exchange(&mut note);
        other.exchange(&mut note);
        self.exchange(&mut note);
        other.exchange(&mut note);
    }

    /// Its appender, if that has begun no message, and its tailer meet a note, one after the other. A note is a caller that
    /// carries what was seen.
    fn exchange(&mut self, note: &mut Caller)
        requires { IsOf self.old.queue note.old }
        ensures of { IsOf self.old.queue note.new }
        ensures exchanged { Exchanges note.old note.new self.old self.new }
    {
        self.work.meet(&self.queue, note);
        self.tailer.meet(&self.queue, note);
    }
}
