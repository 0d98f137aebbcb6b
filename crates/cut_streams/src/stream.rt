//! A stream of a range of a file, with memory for a cut of it.
ghost use Rattle.std.specs.Prelude.{◌≡◌, ◌<◌, ◌≤◌, ◌+◌, ◌^◌, ℕ, List, Option, Some, length, take, drop, IfOk};
ghost use Rattle.outside.specs.Files.{range_of};
ghost use Rattle.pool_model.specs.Content.{Files, told_bytes};
ghost use Rattle.range_cuts.specs.Cuts.{size_of};
ghost use Rattle.cut_streams.specs.Streams.{IsSoundStream, before_cut, bytes_in, closed, cursor_of, file_len_of, moved, next_bytes, opened, offset_in};

use crate::Cursor;
use outside::{FileRange, FileRef, NoMemory};
use std::alloc::Global;

/// A stream that is got cut by cut: where it stands, its file's length, and memory for the cut in which it stands.
#[derive(Drop)]
pub struct CutStream {
    pub(crate) cursor: Cursor,
    pub(crate) file_len: u64,
    pub(crate) bytes: Vec<u8>,
}

/// How many bytes of the cut in which a stream stands were taken.
pub(crate) fn offset_of(cursor: Cursor, chunk: u32) -> u64
    requires { 1 ≤ chunk }
    ensures offset { result ≡ offset_in chunk cursor }
    ensures inside { result ≤ cursor.taken }
    ensures below { result < chunk }
{
    cursor.taken % u64::from(chunk)
}

/// The length of the cut that begins so many bytes behind the start of a range.
pub(crate) fn cut_size(len: u64, chunk: u32, before: u64) -> u32
    requires { before ≤ len }
    ensures size { result ≡ size_of len chunk before }
    ensures small { result ≤ chunk }
    ensures inside { before + result ≤ len }
    ensures fits { before + result < 2 ^ 64 }
{
    let left = len - before;
    if left < u64::from(chunk) {
        left as u32
    } else {
        chunk
    }
}

impl CutStream {
    /// A stream without bytes, with memory for a chunk; `NoMemory` where that is refused.
    pub fn new(alloc: Global, chunk: u32) -> Result<CutStream, NoMemory>
        ensures closed { IfOk result (λ s. cursor_of s ≡ closed) }
        ensures room { IfOk result (λ s. length (bytes_in s) ≡ chunk) }
    {
        let Ok(bytes) = vec![in alloc; 0; chunk as usize] else {
            return Err(NoMemory);
        };
        let range = FileRange {
            file: 0,
            at: 0,
            len: 0,
        };
        Ok(CutStream {
            cursor: Cursor { range, taken: 0 },
            file_len: 0,
            bytes,
        })
    }

    /// Notes the range of a file that the stream is from now on, of which nothing was taken. Nothing is read.
    pub fn open(&mut self, file: FileRef, at: u64, len: u64)
        ensures cursor { cursor_of self.new ≡ opened (range_of file at len) }
        ensures file { file_len_of self.new ≡ file.len }
        ensures bytes { bytes_in self.new ≡ bytes_in self.old }
    {
        let range = FileRange {
            file: file.number,
            at,
            len,
        };
        self.cursor = Cursor { range, taken: 0 };
        self.file_len = file.len;
    }

    /// Nothing is left of the stream from now on.
    pub fn close(&mut self)
        ensures cursor { cursor_of self.new ≡ closed }
        ensures bytes { bytes_in self.new ≡ bytes_in self.old }
    {
        let nothing = FileRef { number: 0, len: 0 };
        self.open(nothing, 0, 0);
    }

    /// What is left of the cut in which the stream stands.
    fn at_hand(&self, chunk: u32) -> &[u8]
        requires some { 1 ≤ chunk }
        requires few { (cursor_of self.now).taken ≤ (cursor_of self.now).range.len }
        requires room { length (bytes_in self.now) ≡ chunk }
        ensures len { offset_in chunk (cursor_of self.now) + length result.now
            ≡ size_of (cursor_of self.now).range.len chunk (before_cut chunk (cursor_of self.now)) }
        ensures inside { (cursor_of self.now).taken + length result.now ≤ (cursor_of self.now).range.len }
        ensures fits { (cursor_of self.now).taken + length result.now < 2 ^ 64 }
        ensures some { (cursor_of self.now).taken < (cursor_of self.now).range.len → 0 < length result.now }
        ensures bytes { result.now ≡ take (length result.now) (drop (offset_in chunk (cursor_of self.now)) (bytes_in self.now)) }
    {
        let offset = offset_of(self.cursor, chunk);
        let before = self.cursor.taken - offset;
        let size = cut_size(self.cursor.range.len, chunk, before);
        &self.bytes[offset as usize..size as usize]
    }

    /// Lends what is left of the cut in which the stream stands: nothing where it stands between two, of which the next wasn't got.
    pub fn lent(&self, chunk: u32) -> &[u8]
        requires some { 1 ≤ chunk }
        requires few { (cursor_of self.now).taken ≤ (cursor_of self.now).range.len }
        requires room { length (bytes_in self.now) ≡ chunk }
        ensures inside { (cursor_of self.now).taken + length result.now ≤ (cursor_of self.now).range.len }
        ensures bytes { (files : Option Files) (file : List ℕ) → IsSoundStream files chunk self.now
            → told_bytes files (cursor_of self.now).range.file ≡ Some file
            → result.now ≡ next_bytes (cursor_of self.now) (length result.now) file }
    {
        if offset_of(self.cursor, chunk) == 0 {
            return &[];
        }
        self.at_hand(chunk)
    }

    /// Passes over bytes of the cut in which the stream stands, at most `count`.
    pub(crate) fn pass(&mut self, chunk: u32, count: usize) -> usize
        requires some { 1 ≤ chunk }
        requires more { (cursor_of self.old).taken < (cursor_of self.old).range.len }
        requires room { length (bytes_in self.old) ≡ chunk }
        ensures fits { result ≤ count }
        ensures some { 0 < count → 0 < result }
        ensures within { offset_in chunk (cursor_of self.old) + result
            ≤ size_of (cursor_of self.old).range.len chunk (before_cut chunk (cursor_of self.old)) }
        ensures cursor { cursor_of self.new ≡ moved (cursor_of self.old) result }
        ensures file { file_len_of self.new ≡ file_len_of self.old }
        ensures same { bytes_in self.new ≡ bytes_in self.old }
    {
        let len = self.at_hand(chunk).len().min(count);
        self.cursor.taken += len as u64;
        len
    }

    /// Copies so many bytes of the memory, from an offset on, to the front of `into`.
    pub(crate) fn copy(&self, offset: usize, len: usize, into: &mut [u8])
        requires inside { offset + len ≤ length (bytes_in self.now) }
        requires fits { len ≤ length into.old }
        ensures { take len into.new ≡ take len (drop offset (bytes_in self.now)) }
    {
        into[..len].copy_from_slice(&self.bytes[offset..offset + len]);
    }
}
