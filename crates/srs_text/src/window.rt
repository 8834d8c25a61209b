// The bytes between a source and its lines.
ghost use Rattle.std.specs.Prelude.{◌≡◌, ◌<◌, ◌≤◌, ◌^◌, ◌+◌, ◌++◌, [], List, ℕ, length, take, IfOk};
ghost use Rattle.std.specs.Prelude.{OnOk, OnErr, IsErr};
ghost use Rattle.std.specs.Bool.{OnTrue, OnFalse};
ghost use Rattle.std.specs.List.{slice_range};
ghost use Rattle.std.specs.Io.KnownBytes.{Consumes, Keeps, IsAtEnd};
ghost use Rattle.srs_text.specs.Line.{HasNoLf, IsLineOf};
ghost use Rattle.srs_text.specs.Ends.{HasCause};
ghost use Rattle.srs_text.specs.Windows.{Reads};

use crate::lines::first_lf;
use crate::{Failed, NoMemory, Source};
use std::alloc::Global;
use std::marker::Model;

// How many bytes a window has room for at first.
const FIRST_ROOM: usize = 16384;

// The bytes that were taken and not yet given, in one buffer, and the line given last. Only the
// rest of a cut line is moved, to the front of the buffer, and once a line is longer than the
// buffer, that doubles.
#[derive(Drop)]
pub struct Window {
    buffer: Vec<u8>,
    // The line given last.
    line: usize,
    line_end: usize,
    // What is held, which has no LF before `searched`.
    start: usize,
    searched: usize,
    end: usize,
}

impl Model for Window {
    ghost use Rattle.std.specs.Prelude.{◌-◌, vec_len};
    ghost use Rattle.std.specs.List.{slice_range};
    ghost use Rattle.srs_text.specs.Windows.{WindowView, IsWindow};

    ghost Value = { WindowView };

    ghost view = { λ w. record { given = slice_range w.buffer.items w.line w.line_end; held = slice_range w.buffer.items w.start w.end; room = vec_len w.buffer - w.end } };

    ghost invariant = { λ w. IsWindow w.buffer.items w.line w.line_end w.start w.searched w.end };
}

impl Window {
    // Nothing is held.
    pub fn new(alloc: Global) -> Result<Window, NoMemory>
        ensures { IfOk result (λ window. window.held ≡ []) }
    {
        let mut buffer = Vec::new(alloc);
        if buffer.resize(FIRST_ROOM, 0).is_err() {
            return Err(NoMemory);
        }
        Ok(Window {
            buffer,
            line: 0,
            line_end: 0,
            start: 0,
            searched: 0,
            end: 0,
        })
    }

    // The line given last.
    pub fn line(&self) -> &[u8]
        ensures { result.now ≡ self.now.given }
    {
        &self.buffer.as_slice()[self.line..self.line_end]
    }

    // What was taken and not given.
    pub fn held(&self) -> &[u8]
        ensures { result.now ≡ self.now.held }
    {
        &self.buffer.as_slice()[self.start..self.end]
    }

    // Gives the next line, if an LF is held.
    pub fn cut(&mut self) -> bool
        ensures cut { OnTrue result (IsLineOf self.old.held self.new.given self.new.held) }
        ensures none { OnFalse result (HasNoLf self.old.held) }
        ensures kept { OnFalse result (self.new.held ≡ self.old.held) }
    {
        match first_lf(&self.buffer.as_slice()[self.searched..self.end]) {
            Some(at) => {
                let lf = self.searched + at;
                self.line = self.start;
                self.line_end = lf;
                self.start = lf + 1;
                self.searched = lf + 1;
                true
            }
            None => {
                self.searched = self.end;
                false
            }
        }
    }

    // Room for a byte at least behind what is held.
    pub fn make_room(&mut self) -> Result<(), NoMemory>
        ensures room { OnOk result (0 < self.new.room) }
        ensures held { self.new.held ≡ self.old.held }
    {
        if self.end < self.buffer.len() {
            return Ok(());
        }
        if self.start > 0 {
            self.buffer.copy_within(self.start..self.end, 0);
            self.searched -= self.start;
            self.end -= self.start;
            self.start = 0;
            self.line = 0;
            self.line_end = 0;
            return Ok(());
        }
        let size = self.buffer.len();
        if self.buffer.resize(size + size, 0).is_err() {
            return Err(NoMemory);
        }
        Ok(())
    }

    // Reads once, behind what is held.
    pub fn read<S: Source>(&mut self, source: &mut S, most: u64) -> Result<usize, Failed>
        requires room { 0 < self.old.room }
        requires most { 0 < most }
        ensures ok { IfOk result
            (Reads (S.left source.old) (S.left source.new) self.old.held self.new.held) }
        ensures few { IfOk result (λ n. n ≤ most) }
        ensures kept { OnErr result (Keeps (S.left source.old) (S.left source.new)) }
        ensures cause { HasCause (S.faults source.old) (S.faults source.new) result }
    {
        let count = read_at(source, self.buffer.as_mut_slice(), self.end, most)?;
        self.end += count;
        Ok(count)
    }
}

// Reads once into the buffer, from `at` on, at most so many bytes.
fn read_at<S: Source>(
    source: &mut S,
    buffer: &mut [u8],
    at: usize,
    most: u64,
) -> Result<usize, Failed>
    requires room { at < length buffer.old }
    requires some { 0 < most }
    ensures front { take at buffer.new ≡ take at buffer.old }
    ensures within { IfOk result (λ n. at + n ≤ length buffer.new) }
    ensures few { IfOk result (λ n. n ≤ most) }
    ensures read { IfOk result (λ n. Consumes (S.left source.old) (S.left source.new)
        (slice_range buffer.new at (at + n))) }
    ensures end { IfOk result (λ n. n ≡ 0 → IsAtEnd (S.left source.new)) }
    ensures kept { OnErr result (Keeps (S.left source.old) (S.left source.new)) }
    ensures cause { HasCause (S.faults source.old) (S.faults source.new) result }
{
    let room = ((buffer.len() - at) as u64).min(most) as usize;
    source.read(&mut buffer[at..at + room])
}
