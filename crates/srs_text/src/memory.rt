// Ends in memory, which fail where they are told to.
ghost use Rattle.std.specs.Prelude.{◌≡◌, ◌<◌, ◌≤◌, ◌⊎◌, ◌↔◌, ◌-◌, ◌^◌, [], List, ℕ, pos, min};
ghost use Rattle.std.specs.Prelude.{length, Contains, IfOk, IsTrue, IsOk, IsErr, OnErr, Some};
ghost use Rattle.std.specs.Io.{ReadsAtMost};
ghost use Rattle.std.specs.Io.KnownBytes.{ReadConsumes, WriteAppends};
ghost use Rattle.srs_text.specs.Ends.{HasCause, Rose, IsSomeOf};
ghost use Rattle.srs_text.specs.Memory.{next_call, one_more, failures_after};

use crate::{Bytes, Failed, NoMemory, Nums, Sink, Source};
use std::alloc::Global;
use std::marker::Model;

// Which calls fail, by their numbers, and how many were made and have failed.
#[derive(Drop)]
struct Calls {
    fail: Nums,
    next: u64,
    failed: u64,
}

impl Calls {
    fn new(fail: Nums) -> Calls
        ensures { result ≡ record { fail = fail; next = 0; failed = 0 } }
    {
        Calls {
            fail,
            next: 0,
            failed: 0,
        }
    }

    // Counts a call, and says whether it is to fail.
    fn begin(&mut self) -> bool
        requires { self.old.next < 2 ^ 63 }
        ensures listed { IsTrue result ↔ Contains self.old.fail (pos self.old.next) }
        ensures counted { self.new ≡ record self.old { next = next_call self.old.next } }
    {
        let call = self.next;
        self.next = (call + 1).min(i64::MAX as u64);
        self.fail.contains(call as i64)
    }

    // Counts a failure.
    fn failure(&mut self) -> Failed
        ensures later { self.old.failed ≤ self.new.failed }
        ensures rose { Rose self.old.failed self.new.failed }
        ensures counted { self.new ≡ record self.old { failed = one_more self.old.failed } }
    {
        self.failed = self.failed.saturating_add(1);
        Failed
    }
}

/// A source in memory. It is seen as the bytes that are left (`left`), how many a read takes at most
/// (`most`), the numbers of the reads that fail (`fail`), the number of the next read (`next`) and how
/// many have failed (`failed`, its count of faults).
#[derive(Drop)]
pub struct MemSource {
    bytes: Bytes,
    at: usize,
    most: u64,
    calls: Calls,
}

impl Model for MemSource {
    ghost use Rattle.std.specs.Prelude.{◌<◌, ◌≤◌, ◌^◌, drop, length};
    ghost use Rattle.srs_text.specs.Memory.{Reading};

    ghost Value = { Reading };

    ghost view = { λ s. record { left = drop s.at s.bytes; most = s.most; fail = s.calls.fail; next = s.calls.next; failed = s.calls.failed } };

    ghost invariant = { λ s. (s.at ≤ length s.bytes) × (1 ≤ s.most) × (s.calls.next < 2 ^ 63) };
}

impl MemSource {
    /// The reads whose numbers are in `fail` fail, the first being 0. It takes no memory.
    pub fn new(bytes: Bytes, fail: Nums) -> MemSource
        ensures { result ≡
            record { left = bytes; most = 2 ^ 64 - 1; fail = fail; next = 0; failed = 0 } }
    {
        MemSource::cut(bytes, fail, u64::MAX)
    }

    /// As `new`, with at most `piece` bytes a read, which is at least 1. It takes no memory.
    pub fn cut(bytes: Bytes, fail: Nums, piece: u64) -> MemSource
        requires { 1 ≤ piece }
        ensures { result ≡
            record { left = bytes; most = piece; fail = fail; next = 0; failed = 0 } }
    {
        MemSource {
            bytes,
            at: 0,
            most: piece,
            calls: Calls::new(fail),
        }
    }

    /// The bytes that are left. It takes no memory.
    pub fn rest(&self) -> &[u8]
        ensures { result.now ≡ self.now.left }
    {
        &self.bytes.as_slice()[self.at..]
    }
}

impl Source for MemSource {
    ghost left = { λ s. Some s.left };

    ghost faults = { λ s. s.failed };

    /// Takes what is left, as far as `into` and the most of a read reach. The number of the next
    /// read stays at the greatest i64, and the count of failures at the greatest u64.
    fn read(&mut self, into: &mut [u8]) -> Result<usize, Failed>
        requires { 0 < length into.old }
        ensures bound { ReadsAtMost result into.new }
        ensures bytes { ReadConsumes (Some self.old.left) (Some self.new.left) result into.new }
        ensures cause { HasCause self.old.failed self.new.failed result }
        ensures fails { IsErr result ↔ Contains self.old.fail (pos self.old.next) }
        ensures count { IfOk result
            (λ n. n ≡ min (min (length into.new) self.old.most) (length self.old.left)) }
        ensures next { self.new.next ≡ next_call self.old.next }
        ensures failed { self.new.failed ≡ failures_after result self.old.failed }
        ensures list { self.new.fail ≡ self.old.fail }
        ensures most { self.new.most ≡ self.old.most }
    {
        if self.calls.begin() {
            return Err(self.calls.failure());
        }
        let left = &self.bytes.as_slice()[self.at..];
        let reach = (into.len() as u64).min(self.most) as usize;
        let count = left.len().min(reach);
        into[..count].copy_from_slice(&left[..count]);
        self.at += count;
        Ok(count)
    }
}

/// A sink in memory. It is seen as the bytes taken (`got`), how many fit in all (`room`), how many a
/// write takes at most (`most`), the numbers of the writes that fail (`fail`), the number of the next
/// write (`next`) and how many have failed (`failed`, its count of faults).
#[derive(Drop)]
pub struct MemSink {
    bytes: Vec<u8>,
    room: usize,
    most: u64,
    calls: Calls,
}

impl Model for MemSink {
    ghost use Rattle.std.specs.Prelude.{◌<◌, ◌≤◌, ◌^◌, vec_len, vec_capacity};
    ghost use Rattle.srs_text.specs.Memory.{Writing};

    ghost Value = { Writing };

    ghost view = { λ s. record { got = s.bytes.items; room = s.room; most = s.most; fail = s.calls.fail; next = s.calls.next; failed = s.calls.failed } };

    ghost invariant = { λ s. (vec_len s.bytes ≤ s.room) × (s.room ≤ vec_capacity s.bytes) × (1 ≤ s.most) × (s.calls.next < 2 ^ 63) };
}

impl MemSink {
    /// Room for `room` bytes, taken here: the writes take no memory. Those whose numbers are in
    /// `fail` fail, the first being 0.
    pub fn new(alloc: Global, room: u64, fail: Nums) -> Result<MemSink, NoMemory>
        ensures { IfOk result
            (λ sink. sink ≡ record {
              got = [];
              room = room;
              most = 2 ^ 64 - 1;
              fail = fail;
              next = 0;
              failed = 0;
            }) }
    {
        MemSink::cut(alloc, room, fail, u64::MAX)
    }

    /// As `new`, with at most `piece` bytes a write, which is at least 1.
    pub fn cut(alloc: Global, room: u64, fail: Nums, piece: u64) -> Result<MemSink, NoMemory>
        requires { 1 ≤ piece }
        ensures { IfOk result
            (λ sink. sink ≡ record {
              got = [];
              room = room;
              most = piece;
              fail = fail;
              next = 0;
              failed = 0;
            }) }
    {
        let room = room as usize;
        match Vec::with_capacity(alloc, room) {
            Ok(bytes) => Ok(MemSink {
                bytes,
                room,
                most: piece,
                calls: Calls::new(fail),
            }),
            Err(_) => Err(NoMemory),
        }
    }

    /// The bytes that were taken. It takes no memory.
    pub fn bytes(&self) -> &[u8]
        ensures { result.now ≡ self.now.got }
    {
        self.bytes.as_slice()
    }
}

impl Sink for MemSink {
    ghost got = { λ s. Some s.got };

    ghost faults = { λ s. s.failed };

    /// Takes a front of the piece, as far as there is room and the most of a write reaches; where there
    /// is no room it fails. The number of the next write stays at the greatest i64, and the count of
    /// failures at the greatest u64.
    fn write(&mut self, piece: &[u8]) -> Result<usize, Failed>
        requires { 0 < length piece.now }
        ensures count { IfOk result (IsSomeOf piece.now) }
        ensures bytes { WriteAppends (Some self.old.got) (Some self.new.got) result piece.now }
        ensures cause { HasCause self.old.failed self.new.failed result }
        ensures fails { IsErr result ↔
            (Contains self.old.fail (pos self.old.next) ⊎ (self.old.room ≤ length self.old.got)) }
        ensures takes { IfOk result
            (λ n. n ≡
            min (min (length piece.now) self.old.most) (self.old.room - length self.old.got)) }
        ensures next { self.new.next ≡ next_call self.old.next }
        ensures failed { self.new.failed ≡ failures_after result self.old.failed }
        ensures list { self.new.fail ≡ self.old.fail }
        ensures room { self.new.room ≡ self.old.room }
        ensures most { self.new.most ≡ self.old.most }
    {
        if self.calls.begin() || self.bytes.len() >= self.room {
            return Err(self.calls.failure());
        }
        let reach = (piece.len() as u64).min(self.most) as usize;
        let count = reach.min(self.room - self.bytes.len());
        self.bytes.extend_from_slice(&piece[..count]).unwrap();
        Ok(count)
    }
}
