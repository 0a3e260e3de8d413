//! Buffers, with a ledger of what was asked for.
#![tactic(auto)]

ghost use Rattle.std.specs.Prelude.{◌≡◌, ◌≤◌, [], IfOk, vec_capacity};
ghost use Rattle.j_pool.specs.Asked.{raised};

use std::alloc::Global;
use std::marker::Model;

/// Memory was wanting.
#[derive(Clone, Copy, PartialEq, Eq, Debug)]
pub struct NoMemory;

/// Gives buffers, and counts the elements that were asked for. Contracts see the count.
#[derive(Drop)]
pub struct Pool {
    alloc: Global,
    asked: u64,
}

impl Model for Pool {
    ghost use Rattle.std.specs.Prelude.{ℕ};

    ghost Value = { ℕ };

    ghost view = { λ p. p.asked };
}

impl Pool {
    pub fn new(alloc: Global) -> Pool
        ensures { result ≡ 0 }
    {
        Pool { alloc, asked: 0 }
    }

    /// How many elements were asked for, or 2^64-1 where there were more.
    pub fn asked(&self) -> u64
        ensures { result ≡ self.now }
    {
        self.asked
    }

    /// The allocator, for owners and growing lists, which the ledger doesn't count.
    pub fn alloc(&self) -> Global {
        self.alloc
    }

    /// An empty buffer with room for `n` elements, always a new one.
    pub fn fresh<T>(&mut self, n: usize) -> Result<Vec<T>, NoMemory>
        ensures asked { self.new ≡ raised self.old n }
        ensures ok { IfOk result (λ v. (v.items ≡ []) × (n ≤ vec_capacity v)) }
    {
        self.asked = self.asked.saturating_add(n as u64);
        match Vec::with_capacity(self.alloc, n) {
            Ok(buffer) => Ok(buffer),
            Err(_) => Err(NoMemory),
        }
    }

    /// An empty buffer with room for `n` numbers.
    pub fn ints(&mut self, n: usize) -> Result<Vec<i64>, NoMemory>
        ensures asked { self.new ≡ raised self.old n }
        ensures ok { IfOk result (λ v. (v.items ≡ []) × (n ≤ vec_capacity v)) }
    {
        self.fresh(n)
    }

    /// An empty buffer with room for `n` bytes.
    pub fn bytes(&mut self, n: usize) -> Result<Vec<u8>, NoMemory>
        ensures asked { self.new ≡ raised self.old n }
        ensures ok { IfOk result (λ v. (v.items ≡ []) × (n ≤ vec_capacity v)) }
    {
        self.fresh(n)
    }

    /// Takes back a buffer of numbers that is done with.
    pub fn give_back_ints(&mut self, _buffer: Vec<i64>)
        ensures { self.new ≡ self.old }
    {}

    /// Takes back a buffer of bytes that is done with.
    pub fn give_back_bytes(&mut self, _buffer: Vec<u8>)
        ensures { self.new ≡ self.old }
    {}
}
