//! Which cells of a file are free, as bits in two levels.

ghost use Rattle.std.specs.Prelude.{◌≡◌, ◌≢◌, ℕ, ◌+◌, ◌*◌, ◌<◌, ◌≤◌, ◌^◌, ◌↔◌, IfOk, IsTrue, MatchOption, length, vec_len};
ghost use Rattle.std.specs.Int.{bit_at};
ghost use Rattle.bk_groups.specs.Bits.{bit_of, SetsBit, ClearsBit};

use std::alloc::{AllocError, Global};
use std::marker::Model;

/// The free ones among cells that are numbered from 0. Contracts see words of 64 bits, the lowest first: the bit of a
/// cell is 1 where it is free.
#[derive(Drop)]
pub(crate) struct FreeCells {
    words: Vec<u64>,
    // one bit for each word: 1 where the word isn't 0
    marks: Vec<u64>,
}

impl Model for FreeCells {
    ghost use Rattle.std.specs.Prelude.{ℕ, List};
    ghost use Rattle.bk_groups.specs.Bits.{IsIndex};

    ghost Value = { List ℕ };

    ghost view = { λ cells. cells.words.items };

    ghost invariant = { λ cells. IsIndex cells.words.items cells.marks.items };
}

impl FreeCells {
    /// So many cells, of which none is free.
    pub fn new(alloc: Global, cells: usize) -> Result<Self, AllocError>
        requires { cells < 2 ^ 40 }
        ensures room { IfOk result (λ free. cells ≤ 64 * length free) }
        ensures none { IfOk result (λ free. (cell : ℕ) → bit_of free cell ≡ 0) }
    {
        let words = cells / 64 + 1;
        Ok(FreeCells {
            words: Vec::from_elem(alloc, 0, words)?,
            marks: Vec::from_elem(alloc, 0, words / 64 + 1)?,
        })
    }

    /// The first free cell, or `None` where none is free.
    pub fn first(&self) -> Option<usize>
        ensures { MatchOption result ((cell : ℕ) → bit_of self.now cell ≡ 0) (λ cell. bit_of self.now cell ≡ 1) }
    {
        for (i, bits) in self.marks.iter().enumerate() {
            if *bits != 0 {
                let word = 64 * i + lowest_bit(*bits);
                return Some(64 * word + lowest_bit(self.words[word]));
            }
        }
        None
    }

    /// Whether a cell is free.
    pub fn contains(&self, cell: usize) -> bool
        requires { cell < 64 * length self.now }
        ensures { IsTrue result ↔ (bit_of self.now cell ≡ 1) }
    {
        has_bit(self.words[cell / 64], cell % 64)
    }

    /// Makes a cell free.
    pub fn insert(&mut self, cell: usize)
        requires { cell < 64 * length self.old }
        ensures len { length self.new ≡ length self.old }
        ensures free { bit_of self.new cell ≡ 1 }
        ensures others { (other : ℕ) → other ≢ cell → bit_of self.new other ≡ bit_of self.old other }
    {
        set_bit(&mut self.words, cell);
        set_bit(&mut self.marks, cell / 64);
    }

    /// Makes a free cell no longer free.
    pub fn remove(&mut self, cell: usize)
        requires room { cell < 64 * length self.old }
        requires free { bit_of self.old cell ≡ 1 }
        ensures len { length self.new ≡ length self.old }
        ensures taken { bit_of self.new cell ≡ 0 }
        ensures others { (other : ℕ) → other ≢ cell → bit_of self.new other ≡ bit_of self.old other }
    {
        let word = cell / 64;
        clear_bit(&mut self.words, cell);
        if self.words[word] == 0 {
            clear_bit(&mut self.marks, word);
        }
    }
}

fn has_bit(bits: u64, i: usize) -> bool
    requires { i < 64 }
    ensures { IsTrue result ↔ (bit_at bits i ≡ 1) }
{
    (bits >> i) & 1 == 1
}

fn lowest_bit(bits: u64) -> usize
    requires { bits ≢ 0 }
    ensures low { result < 64 }
    ensures set { bit_at bits result ≡ 1 }
{
    bits.trailing_zeros() as usize
}

fn set_bit(words: &mut Vec<u64>, i: usize)
    requires { i < 64 * vec_len words.old }
    ensures { SetsBit words.old.items words.new.items i }
{
    words[i / 64] |= 1 << (i % 64);
}

fn clear_bit(words: &mut Vec<u64>, i: usize)
    requires { i < 64 * vec_len words.old }
    ensures { ClearsBit words.old.items words.new.items i }
{
    words[i / 64] &= !(1 << (i % 64));
}
