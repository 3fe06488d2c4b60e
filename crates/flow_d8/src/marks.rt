//! Marks of samples, which record the samples that a search has found.
ghost use Rattle.std.specs.Prelude.{◌≡◌, ◌≢◌, ◌<◌, ◌≤◌, [], ℕ, OnOk, length, slice_index_or, slice_set};
ghost use Rattle.std.specs.Int.{bit_at};
ghost use Rattle.flow_d8.specs.MarkWords.{mark_of};
ghost use Rattle.flow_d8.specs.Marks.{mark_at, AreFree, IsIn, IsRunMarked, AreListed};

use std::alloc::{AllocError, Global};
use std::marker::Model;

pub(crate) const FREE: u8 = 3;

pub(crate) const MEMBER: u8 = 2;

pub(crate) const REACHED: u8 = 0;

/// A mark of two bits for each of `count` samples.
#[derive(Drop)]
pub(crate) struct Marks {
    count: usize,
    // Each word has the marks of 32 samples.
    words: Vec<u64>,
}

impl Model for Marks {
    ghost use Rattle.std.specs.Prelude.{◌≡◌, ℕ, ◌+◌, ◌/◌, List, length};
    ghost use Rattle.flow_d8.specs.MarkWords.{marks_in};

    ghost Value = { List ℕ };

    ghost view = { λ m. marks_in m.words.items m.count };

    ghost invariant = { λ m. length m.words.items ≡ (m.count + 31) / 32 };
}

impl Marks {
    /// Marks of no samples. Allocates nothing.
    pub(crate) fn new(alloc: Global) -> Marks
        ensures { result ≡ [] }
    {
        Marks {
            count: 0,
            words: Vec::new(alloc),
        }
    }

    /// Sets the number of marks. New marks are free.
    pub(crate) fn resize(&mut self, count: usize) -> Result<(), AllocError>
        ensures free { AreFree self.old → AreFree self.new }
        ensures kept { (k : ℕ) → k < count → mark_at self.new k ≡ mark_at self.old k }
        ensures resized { OnOk result (length self.new ≡ count) }
    {
        let old = self.count;
        self.words.resize(count.div_ceil(32), u64::MAX)?;
        self.count = count;
        // The last word may have marks of samples beyond the old count.
        for i in 0..32 {
            self.set(old.saturating_add(i), FREE);
        }
        Ok(())
    }

    /// The mark of the sample; FREE beyond the last sample.
    #[inline(always)]
    pub(crate) fn mark(&self, k: usize) -> u8
        ensures { result ≡ mark_at self.now k }
    {
        if k < self.count {
            ((self.words[k / 32] >> (2 * (k % 32))) % 4) as u8
        } else {
            FREE
        }
    }

    /// Sets the mark of the sample, if there is such a sample.
    #[inline(always)]
    pub(crate) fn set(&mut self, k: usize, mark: u8)
        requires { mark < 4 }
        ensures { self.new ≡ slice_set self.old k mark }
    {
        if k < self.count {
            self.words[k / 32] = with_mark(self.words[k / 32], k % 32, mark);
        }
    }

    /// The allocator of the marks' memory.
    pub(crate) fn allocator(&self) -> Global {
        *self.words.allocator()
    }
}

// The word after its mark with this index is set.
#[inline(always)]
fn with_mark(word: u64, place: usize, mark: u8) -> u64
    requires place { place < 32 }
    requires mark { mark < 4 }
    ensures here { mark_of result place ≡ mark }
    ensures others { (i : ℕ) → i < 32 → i ≢ place → mark_of result i ≡ mark_of word i }
{
    let low = with_bit(word, 2 * place, mark % 2);
    with_bit(low, 2 * place + 1, mark / 2)
}

#[inline(always)]
fn with_bit(word: u64, bit: usize, value: u8) -> u64
    requires bit { bit < 64 }
    requires value { value < 2 }
    ensures here { bit_at result bit ≡ value }
    ensures others { (i : ℕ) → i < 64 → i ≢ bit → bit_at result i ≡ bit_at word i }
{
    if value == 1 {
        word | (1 << bit)
    } else {
        word & !(1 << bit)
    }
}

/// Memory for the marks of a search, kept between searches. Between two searches no mark is set.
#[derive(Drop)]
pub(crate) struct FreeMarks {
    pub(crate) marks: Marks,
    ghost free: { AreFree marks },
}

impl FreeMarks {
    /// No marks. Allocates nothing.
    pub(crate) fn new(alloc: Global) -> FreeMarks {
        FreeMarks {
            marks: Marks::new(alloc),
        }
    }
}

/// A run: successive samples in a row of a tile, all deep in it (at least two samples from its edges), or a single sample.
#[derive(Clone, Copy)]
pub(crate) struct SampleRun {
    pub(crate) first: u32,
    pub(crate) last: u32,
}

/// Marks the samples of the run.
pub(crate) fn mark_run(marks: &mut Marks, run: SampleRun, mark: u8)
    requires last { run.last < length marks.old }
    requires mark { mark < 4 }
    ensures { IsRunMarked run mark marks.old marks.new }
{
    for k in run.first as usize..run.last as usize + 1 {
        marks.set(k, mark);
    }
}

/// Clears the marks of the runs.
pub(crate) fn clear(marks: &mut Marks, runs: &[SampleRun])
    requires { AreListed marks.old runs.now }
    ensures free { AreFree marks.new }
    ensures whole { length marks.new ≡ length marks.old }
{
    for i in 0..runs.len() {
        clear_run(marks, runs[i]);
    }
}

fn clear_run(marks: &mut Marks, run: SampleRun)
    requires { (k : ℕ) → IsIn run k → k < length marks.old }
    ensures whole { length marks.new ≡ length marks.old }
    ensures here { (k : ℕ) → IsIn run k → mark_at marks.new k ≡ 3 }
    ensures others { (k : ℕ) → (IsIn run k → ⊥) → mark_at marks.new k ≡ mark_at marks.old k }
{
    if run.first <= run.last {
        mark_run(marks, run, FREE);
    }
}
