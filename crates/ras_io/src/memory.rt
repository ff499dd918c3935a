//! A source and a sink over memory, for tests.
ghost use Rattle.std.specs.Prelude.{◌≡◌, ℕ, ◌+◌, ◌≤◌, ◌<◌, [], List, length, take, drop, Some, OnOk, OnErr, IfOk, is_ok, is_err, ◌++◌};
ghost use Rattle.std.specs.Io.{ReadsAtMost};
ghost use Rattle.std.specs.Io.KnownBytes.{ReadConsumes};
ghost use Rattle.ras_io.specs.Causes.{HasCause, Puts, one_more};
ghost use Rattle.ras_io.specs.Memory.{fails_next, given, after_read, takes, after_write};

use crate::faults::{NoMemory, SinkFault, SourceFault};
use crate::outside::{Sink, Source};
use std::alloc::Global;
use std::marker::Model;

/// A source over bytes in memory, of which chosen calls fail. It is seen as a `Supply`.
#[derive(Drop)]
pub struct MemSource {
    bytes: Vec<u8>,
    at: usize,
    most: usize,
    fails: Vec<u64>,
    calls: u64,
    faults: u64,
}

impl Model for MemSource {
    ghost use Rattle.std.specs.Prelude.{◌<◌, ◌≤◌, drop, length};
    ghost use Rattle.ras_io.specs.Memory.{Supply};

    ghost Value = { Supply };

    ghost view = { λ s. record {
      left = drop s.at s.bytes.items;
      most = s.most;
      fails = s.fails.items;
      calls = s.calls;
      faults = s.faults;
    } };

    ghost invariant = { λ s. (s.at ≤ length s.bytes.items) × (0 < s.most) };
}

impl MemSource {
    /// A source of these bytes that gives at most `most` of them for each read. `fails` has the
    /// numbers of the calls that are to fail, from 0. Its count of faults begins at 0.
    pub fn new(bytes: Vec<u8>, most: usize, fails: Vec<u64>) -> MemSource
        requires { 0 < most }
        ensures { result ≡ record {
          left = bytes.items;
          most = most;
          fails = fails.items;
          calls = 0;
          faults = 0;
        } }
    {
        MemSource {
            bytes,
            at: 0,
            most,
            fails,
            calls: 0,
            faults: 0,
        }
    }
}

impl Source for MemSource {
    ghost left = { λ s. Some s.left };

    ghost faults = { λ s. s.faults };

    fn read(&mut self, buf: &mut [u8]) -> Result<usize, SourceFault>
        ensures bound { ReadsAtMost result buf.new }
        ensures bytes { ReadConsumes (Some self.old.left) (Some self.new.left) result buf.new }
        ensures cause { HasCause self.old.faults self.new.faults result }
        ensures fails { is_err result ≡ fails_next self.old.fails self.old.calls }
        ensures count { IfOk result (λ n. n ≡ given (length buf.old) self.old) }
        ensures after { self.new ≡ after_read (length buf.old) self.old }
        ensures untouched { IfOk result (λ n. drop n buf.new ≡ drop n buf.old) }
        ensures untouched_err { OnErr result (buf.new ≡ buf.old) }
    {
        let call = self.calls;
        self.calls = call.saturating_add(1);
        if self.fails.contains(&call) {
            self.faults = self.faults.saturating_add(1);
            return Err(SourceFault);
        }
        let (_, left) = self.bytes.as_slice().split_at(self.at);
        let count = self.most.min(buf.len()).min(left.len());
        buf[..count].copy_from_slice(&left[..count]);
        self.at += count;
        Ok(count)
    }
}

/// A sink over memory of which chosen calls fail. It is seen as a `Store`.
#[derive(Drop)]
pub struct MemSink {
    bytes: Vec<u8>,
    room: usize,
    fails: Vec<u64>,
    calls: u64,
    faults: u64,
}

impl Model for MemSink {
    ghost use Rattle.std.specs.Prelude.{◌≤◌, vec_capacity, length};
    ghost use Rattle.ras_io.specs.Memory.{Store};

    ghost Value = { Store };

    ghost view = { λ s. record {
      written = s.bytes.items;
      room = s.room;
      fails = s.fails.items;
      calls = s.calls;
      faults = s.faults;
    } };

    ghost invariant = { λ s. s.room ≤ vec_capacity s.bytes };
}

impl MemSink {
    /// An empty sink with room for so many bytes, whose writes take no memory. `fails` has the
    /// numbers of the calls that are to fail, from 0. Its count of faults begins at 0. `NoMemory`
    /// comes where no room was found.
    pub fn new(alloc: Global, room: usize, fails: Vec<u64>) -> Result<MemSink, NoMemory>
        ensures { IfOk result (λ s. s ≡ record {
          written = [];
          room = room;
          fails = fails.items;
          calls = 0;
          faults = 0;
        }) }
    {
        let bytes = Vec::with_capacity(alloc, room).map_err(|_| NoMemory)?;
        Ok(MemSink {
            bytes,
            room,
            fails,
            calls: 0,
            faults: 0,
        })
    }

    /// What was written so far.
    pub fn bytes(&self) -> &[u8]
        ensures { result.now ≡ self.now.written }
    {
        self.bytes.as_slice()
    }
}

impl Sink for MemSink {
    ghost written = { λ s. Some s.written };

    ghost writes = { λ s. s.calls };

    ghost faults = { λ s. s.faults };

    fn write(&mut self, bytes: &[u8]) -> Result<(), SinkFault>
        ensures bytes { Puts (Some self.old.written) (Some self.new.written) result bytes.now }
        ensures counted { self.new.calls ≡ one_more self.old.calls }
        ensures cause { HasCause self.old.faults self.new.faults result }
        ensures takes { is_ok result ≡ takes bytes.now self.old }
        ensures after { self.new ≡ after_write bytes.now self.old }
    {
        let call = self.calls;
        self.calls = call.saturating_add(1);
        let fits = bytes.len() <= self.room && self.bytes.len() <= self.room - bytes.len();
        if !fits || self.fails.contains(&call) {
            self.faults = self.faults.saturating_add(1);
            return Err(SinkFault);
        }
        match self.bytes.extend_from_slice(bytes) {
            Ok(()) => Ok(()),
            Err(_) => unreachable!(),
        }
    }
}
