//! A tailer that found no message yet looks whether its queue is closed. If so it reads once more, since a message may
//! have come before the queue was closed.
ghost use Rattle.std.specs.Prelude.{[], IfErr, IfOk, IsOk, OnErr};
ghost use Rattle.cq_endpoint.specs.Reads.{LooksAfter, NextFits, OfAt, OfAtInto, OfMemory, OfNext, OfNextInto, OfPeek, OfTake, OfTakeInto, ReadFits, ReadsLast, TakeFits, TakeRefusedAgain, next_into_outcome, next_outcome, peeked_outcome, read_at_into_outcome, read_at_outcome, reader, taken_into_outcome, taken_outcome};
ghost use Rattle.cq_tail.specs.Names.{IsDeclared};
ghost use Rattle.cq_words.specs.Values.{IsOf};

use crate::answers::{Next, NextInto, NextPeeked, ReadAt, ReadAtInto, Taken, TakenInto};
use cq_cycle::Index;
use cq_tail::{
    At, AtInto, Found, FoundInto, NoSuchName, Peeked, Tailer, Take, TakeFault, TakeInto,
};
use cq_words::Queue;
use std::alloc::{AllocError, Global};

/// What `next` returns after a read that found no message yet.
#[cold]
pub(crate) fn next_again(
    tailer: &mut Tailer,
    queue: &Queue,
    alloc: Global,
) -> Result<Next, AllocError>
    requires { IsOf queue.now tailer.old.caller }
    ensures ok { IfOk result (λ next. LooksAfter queue.now (OfNext queue.now) Found.NotYet (reader tailer.old [])
        (reader tailer.new []) (next_outcome next)) }
    ensures memory { OnErr result (ReadsLast queue.now (reader tailer.old [])
        (λ t. OfMemory queue.now t (reader tailer.new []))) }
{
    if !tailer.is_sealed(queue) {
        return Ok(Next::NotYet);
    }
    Ok(Next::of(tailer.next(alloc, queue)?))
}

/// What `peek` returns after a look that found no message yet.
#[cold]
pub(crate) fn peek_again(tailer: &mut Tailer, queue: &Queue) -> NextPeeked
    requires { IsOf queue.now tailer.old.caller }
    ensures { LooksAfter queue.now (OfPeek queue.now) Peeked.NotYet (reader tailer.old []) (reader tailer.new [])
        (peeked_outcome result) }
{
    if !tailer.is_sealed(queue) {
        return NextPeeked::NotYet;
    }
    NextPeeked::of(tailer.peek(queue))
}

/// What `read_at` returns after a read that found no message yet.
#[cold]
pub(crate) fn read_at_again(
    tailer: &mut Tailer,
    queue: &Queue,
    alloc: Global,
    index: Index,
) -> Result<ReadAt, AllocError>
    requires { IsOf queue.now tailer.old.caller }
    ensures ok { IfOk result (λ read. LooksAfter queue.now (OfAt queue.now index) At.NotYet (reader tailer.old [])
        (reader tailer.new []) (read_at_outcome read)) }
    ensures memory { OnErr result (ReadsLast queue.now (reader tailer.old [])
        (λ t. OfMemory queue.now t (reader tailer.new []))) }
{
    if !tailer.is_sealed(queue) {
        return Ok(ReadAt::NotYet);
    }
    Ok(ReadAt::of(tailer.read_at(alloc, queue, index)?))
}

/// What `take` returns after a take that found no message yet.
#[cold]
pub(crate) fn take_again(
    tailer: &mut Tailer,
    queue: &Queue,
    alloc: Global,
    name: &str,
) -> Result<Taken, TakeFault>
    requires of { IsOf queue.now tailer.old.caller }
    requires named { IsDeclared queue.now name.now }
    ensures ok { IfOk result (λ taken. LooksAfter queue.now (OfTake queue.now name.now) Take.NotYet
        (reader tailer.old []) (reader tailer.new []) (taken_outcome taken)) }
    ensures err { IfErr result (λ fault. TakeRefusedAgain queue.now tailer.old tailer.new fault) }
{
    if !tailer.is_sealed(queue) {
        return Ok(Taken::NotYet);
    }
    Ok(Taken::of(tailer.take(alloc, queue, name)?))
}

/// What `next_into` returns after a read that found no message yet.
#[cold]
pub(crate) fn next_into_again(tailer: &mut Tailer, queue: &Queue, room: &mut [u8]) -> NextInto
    requires { IsOf queue.now tailer.old.caller }
    ensures says { LooksAfter queue.now (OfNextInto queue.now) FoundInto.NotYet (reader tailer.old room.old)
        (reader tailer.new room.new) (next_into_outcome result) }
    ensures fits { NextFits room.new result }
{
    if !tailer.is_sealed(queue) {
        return NextInto::NotYet;
    }
    NextInto::of(tailer.next_into(queue, room))
}

/// What `read_at_into` returns after a read that found no message yet.
#[cold]
pub(crate) fn read_at_into_again(
    tailer: &mut Tailer,
    queue: &Queue,
    index: Index,
    room: &mut [u8],
) -> ReadAtInto
    requires { IsOf queue.now tailer.old.caller }
    ensures says { LooksAfter queue.now (OfAtInto queue.now index) AtInto.NotYet (reader tailer.old room.old)
        (reader tailer.new room.new) (read_at_into_outcome result) }
    ensures fits { ReadFits room.new result }
{
    if !tailer.is_sealed(queue) {
        return ReadAtInto::NotYet;
    }
    ReadAtInto::of(tailer.read_at_into(queue, index, room))
}

/// What `take_into` returns after a take that found no message yet.
#[cold]
pub(crate) fn take_into_again(
    tailer: &mut Tailer,
    queue: &Queue,
    name: &str,
    room: &mut [u8],
) -> Result<TakenInto, NoSuchName>
    requires of { IsOf queue.now tailer.old.caller }
    requires named { IsDeclared queue.now name.now }
    ensures ok { IfOk result (λ taken. LooksAfter queue.now (OfTakeInto queue.now name.now) TakeInto.NotYet
        (reader tailer.old room.old) (reader tailer.new room.new) (taken_into_outcome taken)) }
    ensures fits { IfOk result (λ taken. TakeFits room.new taken) }
    ensures err { IsOk result }
{
    if !tailer.is_sealed(queue) {
        return Ok(TakenInto::NotYet);
    }
    Ok(TakenInto::of(tailer.take_into(queue, name, room)?))
}
