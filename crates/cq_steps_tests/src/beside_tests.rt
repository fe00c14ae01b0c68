//! Callers in the middle of a call while an appender is lost: they go on, and get the results that a read of the
//! queue at that moment gives.
ghost use Rattle.std.specs.Prelude.{◌≡◌, ◌≤◌, ◌^◌, ℕ, List, IfSome, None};
ghost use Rattle.cq_shown.specs.Plans.{settings_in};
ghost use Rattle.cq_steps_tests.specs.Writers.{HasSeen, IsIdle, IsIdleAt};
ghost use Rattle.cq_walks.specs.Trails.{HasMessage, IsTrail};
ghost use Rattle.cq_words.specs.Values.{IsOf};

use crate::looking::look;
use crate::publishing::publish;
use crate::queues::{
    Call, Loss, Measures, append_first, layout_of, left_text, lose, new_queue, push_at, push_rest,
    steps_to_stand,
};
use crate::reading::{load_first, tell};
use crate::steps::Steps;
use crate::writing::write;
use cq_cycle::Index;
use cq_fixtures::{DAY, expect_text, push_missed};
use cq_layout::Layout;
use cq_shown::Stopped;
use cq_tail::Tailer;
use cq_walks::{MessagePlace, Trail, behind};
use cq_words::{Caller, Queue};
use std::alloc::{AllocError, Global};
use std::test::Fail;

const MEASURES: Measures = (64, 8, 1);

impl Call<'_> {
    /// The step that others see, after this many messages. It publishes the message of one byte, or is the last of four
    /// steps, such as the one that ends the cycle before.
    fn shows(self, layout: Layout, count: u32) -> u32
        ensures { result ≤ 2 ^ 31 }
    {
        match self {
            Call::Append(_) => steps_to_stand(layout, count, 1),
            Call::Advance(_) | Call::GiveUp(_) => 4,
        }
    }

    /// How many steps come after that: two entries of the index, and the write position.
    fn rest(self) -> u32
        ensures { result ≤ 3 }
    {
        match self {
            Call::Append(_) => 3,
            Call::Advance(_) | Call::GiveUp(_) => 0,
        }
    }
}

/// What another caller is at when the appender is lost.
#[derive(Clone, Copy)]
enum Middle {
    /// It reads the last message, of which the first cell was loaded.
    Copy,
    /// It reads the message after that, if it has loaded the tail.
    Look,
    /// It takes the first message by the name "reader", whose position was loaded.
    Take,
    /// It met a third caller, and meets the one that is lost.
    Meet,
}

/// A caller next to an appender that is lost.
#[derive(Clone, Copy)]
struct Case {
    /// How many messages are there before.
    count: u32,
    /// The appender's call.
    call: Call<'static>,
    /// After how many steps of that the appender is lost.
    steps: u32,
    /// What the caller is at then.
    middle: Middle,
}

/// Appends "a" this many times and once more. Returns where the last one is, and the trail after it.
fn append_more(queue: &Queue, caller: &mut Caller, count: u32) -> Option<(MessagePlace, Trail)>
    requires of { IsOf queue.now caller.old }
    requires idle { caller.old.view.claim ≡ None }
    ensures of { IsOf queue.now caller.new }
    ensures seen { IfSome result (λ r. (message : List ℕ) × HasMessage (settings_in queue.now.plan) caller.new.view r.0 message) }
    ensures behind { IfSome result (λ r. (caller.new.view.claim ≡ None) × IsTrail (settings_in queue.now.plan) caller.new.view r.1) }
{
    let trail = append_first(queue, caller, count)?;
    let mut steps = Steps { left: 100 };
    let at = write(queue, caller, &mut steps, &trail, b"a")?;
    let _seen_end = caller.seen_end();
    publish(queue, caller, &mut steps, at)?;
    Some((at, behind(queue, caller, at)))
}

/// Appends "a" this many times. Returns where the last one is, if there is one, and the trail after it.
fn append_some(
    queue: &Queue,
    caller: &mut Caller,
    count: u32,
) -> Option<(Option<MessagePlace>, Trail)>
    requires of { IsOf queue.now caller.old }
    requires idle { caller.old.view.claim ≡ None }
    ensures of { IsOf queue.now caller.new }
    ensures seen { IfSome result (λ r. IfSome r.0 (λ at. (message : List ℕ) × HasMessage (settings_in queue.now.plan) caller.new.view at message)) }
    ensures behind { IfSome result (λ r. (caller.new.view.claim ≡ None) × IsTrail (settings_in queue.now.plan) caller.new.view r.1) }
{
    if count == 0 {
        return Some((None, append_first(queue, caller, 0)?));
    }
    let (at, trail) = append_more(queue, caller, count - 1)?;
    Some((Some(at), trail))
}

/// A caller reads a message that it has seen. Returns its first cell and the floor.
fn copied(
    queue: &Queue,
    reader: &mut Caller,
    at: MessagePlace,
    writer: &mut Caller,
    loss: &Loss,
) -> (u32, u32)
    requires reader { HasSeen queue.now reader.old at × (reader.old.view.claim ≡ None) }
    requires writer { IsIdleAt queue.now writer.old loss.now.trail }
    ensures { IsIdle queue.now reader.new }
{
    let cell = load_first(queue, reader, at);
    lose(queue, writer, loss);
    (cell, tell(queue, reader, at))
}

/// A caller loads the tail. Returns the header there.
fn looked(queue: &Queue, reader: &mut Caller, writer: &mut Caller, loss: &Loss) -> u32
    requires reader { IsIdleAt queue.now reader.old loss.now.trail }
    requires writer { IsIdleAt queue.now writer.old loss.now.trail }
    ensures { IsIdle queue.now reader.new }
{
    let header = look(queue, reader, &loss.trail);
    lose(queue, writer, loss);
    header
}

/// A caller takes the first message. Returns the position that it loaded, and where it found the name, or `None`
/// if there is no name or no message.
fn taken(queue: &Queue, reader: &mut Caller, writer: &mut Caller, loss: &Loss) -> Option<(u64, u64)>
    requires reader { IsIdle queue.now reader.old }
    requires writer { IsIdleAt queue.now writer.old loss.now.trail }
    ensures { IsIdle queue.now reader.new }
{
    if queue.config().names().is_empty() {
        return None;
    }
    let position = queue.load_position(reader, 0);
    lose(queue, writer, loss);
    if position >= reader.seen_end() {
        return None;
    }
    Some((position, queue.seek(reader, 0, position, position + 1)))
}

/// A caller meets a third one, and then the one that is lost. Returns the ends that the caller and the third one have seen.
fn met(queue: &Queue, reader: &mut Caller, writer: &mut Caller, loss: &Loss) -> (u64, u64)
    requires reader { IsIdle queue.now reader.old }
    requires writer { IsIdleAt queue.now writer.old loss.now.trail }
    ensures { IsIdle queue.now reader.new }
{
    let mut third = queue.split(reader);
    queue.meet(reader, &mut third);
    lose(queue, writer, loss);
    queue.meet(writer, reader);
    let end = reader.seen_end();
    queue.meet(&mut third, reader);
    (end, third.seen_end())
}

/// What a caller is at, which last message it has seen, and how the appender is lost.
#[derive(Clone, Copy)]
struct Spot {
    middle: Middle,
    at: Option<MessagePlace>,
    loss: Loss<'static>,
}

/// Adds what a call returns that a caller is at when the appender is lost.
fn push_middle(
    queue: &Queue,
    reader: &mut Caller,
    writer: &mut Caller,
    spot: &Spot,
    out: &mut String,
) -> Result<(), AllocError>
    requires reader { IsIdleAt queue.now reader.old spot.now.loss.trail }
    requires writer { IsIdleAt queue.now writer.old spot.now.loss.trail }
    requires seen { IfSome spot.now.at (λ at. HasSeen queue.now reader.old at) }
    ensures { IsIdle queue.now reader.new }
{
    match (spot.middle, spot.at) {
        (Middle::Copy, Some(at)) => {
            let (cell, floor) = copied(queue, reader, at, writer, &spot.loss);
            write!(out, "cell {cell:08x}, floor {floor}")
        }
        (Middle::Copy, None) => out.push_str("no message"),
        (Middle::Look, _) => {
            let header = looked(queue, reader, writer, &spot.loss);
            write!(out, "header {header}")
        }
        (Middle::Take, _) => match taken(queue, reader, writer, &spot.loss) {
            Some((position, found)) => write!(out, "at {position}, found {found}"),
            None => out.push_str("no message"),
        },
        (Middle::Meet, _) => {
            let (end, third) = met(queue, reader, writer, &spot.loss);
            write!(out, "end {end}, {third}")
        }
    }
}

/// Adds what a tailer reads after the last message that was there before, and then from the start on.
fn push_reads(
    alloc: Global,
    queue: &Queue,
    tailer: &mut Tailer,
    trail: &Trail,
    out: &mut String,
) -> Result<(), AllocError>
    requires { IsOf queue.now tailer.old.caller }
{
    let index = Index::new(trail.cycle, trail.walker.sequence());
    out.push_str(", ")?;
    push_at(alloc, queue, tailer, index, out)?;
    out.push_str("; ")?;
    push_rest(alloc, queue, tailer, out)
}

/// Adds what a caller's call returns next to an appender that is lost, and what the caller reads then.
fn push_beside(
    alloc: Global,
    queue: &Queue,
    writer: &mut Caller,
    case: Case,
    out: &mut String,
) -> Result<(), AllocError>
    requires { IsIdle queue.now writer.old }
{
    let Some((at, trail)) = append_some(queue, writer, case.count) else {
        return out.push_str("not appended; ");
    };
    let loss = Loss {
        call: case.call,
        steps: case.steps,
        trail,
    };
    let spot = Spot {
        middle: case.middle,
        at,
        loss,
    };
    let mut reader = queue.split(writer);
    let told = push_middle(queue, &mut reader, writer, &spot, out);
    let mut tailer = Tailer::new(reader);
    match told {
        Ok(()) => push_reads(alloc, queue, &mut tailer, &spot.loss.trail, out),
        Err(refused) => Err(refused),
    }
}

/// The same in a new queue, which is then stopped.
fn stopped_beside(alloc: Global, case: Case, out: &mut String) -> Result<Stopped, Fail> {
    let (queue, mut writer) = new_queue(alloc, MEASURES)?;
    let other = queue.split(&mut writer);
    push_beside(alloc, &queue, &mut writer, case, out)?;
    Ok(queue.stop(other))
}

/// The same, and then what is left.
fn told_text(alloc: Global, case: Case) -> Result<String, Fail> {
    let mut told = String::new(alloc);
    let stopped = stopped_beside(alloc, case, &mut told)?;
    told.push_str(left_text(alloc, MEASURES, &stopped)?.as_str())?;
    Ok(told)
}

/// What a caller in the middle of a call tells until a certain step of the lost appender, and from that step on: if the
/// appender appends "b", and if it begins cycle 5.
struct Beside {
    middle: Middle,
    before: &'static str,
    appended: &'static str,
    advanced: &'static str,
}

/// After eight messages.
static BESIDE: [Beside; 4] = [
    Beside {
        middle: Middle::Copy,
        before: "cell 00000061, floor 0, NotYet; aaaaaaaa, NotYet; 0[a;a;a;a;a;a;a;a;] at [0], 8",
        appended: "cell 00000061, floor 0, b; aaaaaaaab, NotYet; 0[a;a;a;a;a;a;a;a;b;] at [0], 9",
        advanced: "cell 00000061, floor 0, Never; aaaaaaaa, NotYet; 0[a;a;a;a;a;a;a;a;] 5[] at [0], 21474836480",
    },
    Beside {
        middle: Middle::Look,
        before: "header 0, NotYet; aaaaaaaa, NotYet; 0[a;a;a;a;a;a;a;a;] at [0], 8",
        appended: "header 0, b; aaaaaaaab, NotYet; 0[a;a;a;a;a;a;a;a;b;] at [0], 9",
        advanced: "header 0, Never; aaaaaaaa, NotYet; 0[a;a;a;a;a;a;a;a;] 5[] at [0], 21474836480",
    },
    Beside {
        middle: Middle::Take,
        before: "at 0, found 0, NotYet; aaaaaaaa, NotYet; 0[a;a;a;a;a;a;a;a;] at [1], 8",
        appended: "at 0, found 0, b; aaaaaaaab, NotYet; 0[a;a;a;a;a;a;a;a;b;] at [1], 9",
        advanced: "at 0, found 0, Never; aaaaaaaa, NotYet; 0[a;a;a;a;a;a;a;a;] 5[] at [1], 21474836480",
    },
    Beside {
        middle: Middle::Meet,
        before: "end 8, 8, NotYet; aaaaaaaa, NotYet; 0[a;a;a;a;a;a;a;a;] at [0], 8",
        appended: "end 9, 9, b; aaaaaaaab, NotYet; 0[a;a;a;a;a;a;a;a;b;] at [0], 9",
        advanced: "end 21474836480, 21474836480, Never; aaaaaaaa, NotYet; 0[a;a;a;a;a;a;a;a;] 5[] at [0], 21474836480",
    },
];

/// Where no message is.
static BESIDE_FIRST: [Beside; 2] = [
    Beside {
        middle: Middle::Look,
        before: "header 0, NotYet; , NotYet; 0[] at [0], 0",
        appended: "header 0, b; b, NotYet; 0[b;] at [0], 1",
        advanced: "header 0, Never; , NotYet; 0[] 5[] at [0], 21474836480",
    },
    Beside {
        middle: Middle::Meet,
        before: "end 0, 0, NotYet; , NotYet; 0[] at [0], 0",
        appended: "end 1, 1, b; b, NotYet; 0[b;] at [0], 1",
        advanced: "end 21474836480, 21474836480, Never; , NotYet; 0[] 5[] at [0], 21474836480",
    },
];

/// Adds what differs from what is wanted, next to an appender that is lost in a call after each number of steps.
fn push_missed_beside(
    alloc: Global,
    mut case: Case,
    before: &str,
    behind: &str,
    missed: &mut String,
) -> Result<(), Fail> {
    let shows = case.call.shows(layout_of(alloc, MEASURES)?, case.count);
    for steps in 0..shows + case.call.rest() + 1 {
        case.steps = steps;
        let told = told_text(alloc, case)?;
        let want = if shows <= steps { behind } else { before };
        push_missed(alloc, missed, steps as usize, told.as_str(), want)?;
    }
    Ok(())
}

/// Returns what differs from what is wanted, next to an appender that is lost after this many messages.
fn missed_beside(alloc: Global, count: u32, beside: &Beside) -> Result<String, Fail> {
    let mut missed = String::new(alloc);
    let calls = [
        (Call::Append("b"), beside.appended),
        (Call::Advance(5 * DAY), beside.advanced),
    ];
    for (call, behind) in calls {
        let case = Case {
            count,
            call,
            steps: 0,
            middle: beside.middle,
        };
        push_missed_beside(alloc, case, beside.before, behind, &mut missed)?;
    }
    Ok(missed)
}

#[test]
fn others_go_on_in_the_middle_of_their_calls(rt: HostRuntime) -> Result<(), Fail> {
    for beside in &BESIDE {
        expect_text(missed_beside(rt.alloc(), 8, beside)?, "")?;
    }
    Ok(())
}

#[test]
fn others_go_on_where_no_message_stands(rt: HostRuntime) -> Result<(), Fail> {
    for beside in &BESIDE_FIRST {
        expect_text(missed_beside(rt.alloc(), 0, beside)?, "")?;
    }
    Ok(())
}
