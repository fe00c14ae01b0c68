//! Callers that meet in place, and endpoints that do.
ghost use Rattle.std.specs.Prelude.{◌≡◌};
ghost use Rattle.cq_words.specs.Values.{IsOf};

use crate::calls::{Call, Calls, expect_calls};
use crate::new_queues::two_endpoints;
use cq_append::Appender;
use cq_endpoint::Endpoint;
use cq_fixtures::{expect, expect_text, small_config};
use cq_tail::Tailer;
use cq_words::{Caller, Queue};
use std::alloc::Global;
use std::test::Fail;

/// The ends that two endpoints have seen, of which one appends, before they meet and then.
fn ends_text(alloc: Global, one: &mut Endpoint, other: &mut Endpoint) -> Result<String, Fail>
    requires { other.old.queue ≡ one.old.queue }
{
    let _index = one.append(0, b"a")?;
    let before = (one.seen_end(), other.seen_end());
    one.meet(other);
    let then = (one.seen_end(), other.seen_end());
    Ok(format!(in alloc; "{before:?} {then:?}")?)
}

/// The same of two endpoints of a new queue.
fn met_text(alloc: Global) -> Result<String, Fail> {
    let (mut one, mut other) = two_endpoints(alloc)?;
    ends_text(alloc, &mut one, &mut other)
}

#[test]
fn endpoints_meet(rt: HostRuntime) -> Result<(), Fail> {
    expect_text(met_text(rt.alloc())?, "(0, 0) (1, 1)")
}

/// Begins a message of at most five bytes. Returns whether it is begun.
fn begins(endpoint: &mut Endpoint) -> bool
    ensures queue { endpoint.new.queue ≡ endpoint.old.queue }
{
    endpoint.begin(0, 5).is_ok()
}

/// One endpoint begins a message, and another one meets it. Returns whether the message is begun.
fn begin_and_meet(one: &mut Endpoint, other: &mut Endpoint) -> bool
    requires { other.old.queue ≡ one.old.queue }
{
    let is_begun = begins(one);
    other.meet(one);
    is_begun
}

/// Two endpoints of a new queue, of which the first one has begun a message and then met the other.
fn met_endpoints(alloc: Global) -> Result<(Endpoint, Endpoint), Fail> {
    let (mut one, mut other) = two_endpoints(alloc)?;
    let is_begun = begin_and_meet(&mut one, &mut other);
    expect(is_begun, "a message is begun")?;
    Ok((one, other))
}

/// Calls of the endpoint that has begun a message.
const COMPLETES: Calls = &[(Call::Put("hello"), "put"), (Call::Complete, "0")];

/// A call of the endpoint that it met.
const READS: Calls = &[(Call::Next, "0 hello")];

#[test]
fn a_message_that_is_begun_stays_so_over_a_meeting(rt: HostRuntime) -> Result<(), Fail> {
    let (mut one, mut other) = met_endpoints(rt.alloc())?;
    expect_calls(rt.alloc(), "one endpoint", &mut one, COMPLETES)?;
    expect_calls(rt.alloc(), "the other", &mut other, READS)
}

/// An appender and a tailer meet a note one after the other, which is split off a caller.
fn pass_note(queue: &Queue, appender: &mut Appender, tailer: &mut Tailer, caller: &mut Caller)
    requires appender { IsOf queue.now appender.old }
    requires tailer { IsOf queue.now tailer.old.caller }
    requires caller { IsOf queue.now caller.old }
    ensures appender { IsOf queue.now appender.new }
    ensures tailer { IsOf queue.now tailer.new.caller }
{
    let mut note = queue.split(caller);
    appender.meet(queue, &mut note);
    tailer.meet(queue, &mut note);
}

/// The ends that a tailer and another one that is split off it have seen.
fn seen_ends(queue: &Queue, tailer: &mut Tailer) -> (u64, u64)
    requires { IsOf queue.now tailer.old.caller }
{
    let other = Tailer::new(tailer.split(queue));
    (tailer.seen_end(), other.seen_end())
}

/// The ends that a tailer and another one that is split off it have seen, before and after a note that an appender
/// gave.
fn noted_ends(
    queue: &Queue,
    appender: &mut Appender,
    tailer: &mut Tailer,
    caller: &mut Caller,
) -> Result<(u64, u64, u64), Fail>
    requires appender { IsOf queue.now appender.old }
    requires tailer { IsOf queue.now tailer.old.caller }
    requires caller { IsOf queue.now caller.old }
{
    let _index = appender.append(queue, 0, b"a")?;
    let before = tailer.seen_end();
    pass_note(queue, appender, tailer, caller);
    drop(Appender::new(appender.split(queue)));
    let (seen, other) = seen_ends(queue, tailer);
    Ok((before, seen, other))
}

/// The same of an appender and a tailer that are split off a caller.
fn noted_by(queue: &Queue, caller: &mut Caller) -> Result<(u64, u64, u64), Fail>
    requires { IsOf queue.now caller.old }
{
    let mut appender = Appender::new(queue.split(caller));
    let mut tailer = Tailer::new(queue.split(caller));
    noted_ends(queue, &mut appender, &mut tailer, caller)
}

/// The same of a new queue.
fn noted(alloc: Global) -> Result<(u64, u64, u64), Fail> {
    let (queue, mut caller) = Queue::create(alloc, small_config(alloc, 4)?, 0)?;
    noted_by(&queue, &mut caller)
}

#[test]
fn an_appender_and_a_tailer_meet_in_place(rt: HostRuntime) -> Result<(), Fail> {
    expect(
        noted(rt.alloc())? == (0, 1, 1),
        "the ends that two have seen",
    )
}
