//! A reader that takes an input piece by piece.
ghost use Rattle.std.specs.Prelude.{◌≡◌, ◌≤◌, ◌++◌, ℕ, List, [], length, IfOk, OnOk, IsErr, Err, true};
ghost use Rattle.net_reader.specs.declared.fault.ReadRefusal.TheVariants.{OutOfMemory};
ghost use Rattle.net_reader.specs.Reading.{HasRoom, IsRead, IsReadWithGraph, StandsFor, most_bytes};

use crate::fault::ReadRefusal;
use crate::input::{Input, answer};
use crate::scan::Scan;
use net_graph::Graph;
use std::alloc::{AllocError, Global};
use std::fmt::{self, Debug, Formatter};
use std::marker::Model;

/// How many bytes an input may have.
pub const MAX_BYTES: usize = 4_194_304;

/// A reader of an input. It stands for the bytes that were fed to it, whatever pieces they came in,
/// and keeps what their lines say and none of the bytes: a line of any length costs no memory.
/// After want of memory it has failed, and stands for no bytes.
#[derive(Drop)]
pub struct Reader {
    failed: bool,
    scan: Scan,
}

impl Model for Reader {
    ghost use Rattle.net_reader.specs.Reading.{ReaderValue, IsSoundReader};
    ghost use Rattle.net_reader.specs.Seen.{seen_scan};

    ghost Value = { ReaderValue };

    ghost view = { λ r. record { failed = r.failed; state = seen_scan r.scan } };

    ghost invariant = { λ r. IsSoundReader r.failed r.scan };
}

impl Debug for Reader {
    fn fmt<W: fmt::Write>(&self, f: &mut Formatter<W>) -> fmt::Result {
        f.debug_struct("Reader").finish_non_exhaustive()
    }
}

impl Reader {
    /// A reader of no bytes.
    pub fn new(alloc: Global) -> Result<Reader, AllocError>
        ensures { IfOk result (λ reader. StandsFor reader []) }
    {
        Ok(Reader {
            failed: false,
            scan: Scan::new(alloc)?,
        })
    }

    /// Reads one piece more; all pieces together have fewer than 2^32 bytes. Where memory runs out
    /// the reader has failed from then on, and this call and each later one say so.
    pub fn feed(&mut self, piece: &[u8]) -> Result<(), AllocError>
        requires { HasRoom self.old (length piece.now) }
        ensures fed { OnOk result ((bytes : List ℕ) → StandsFor self.old bytes
            → StandsFor self.new (bytes ++ piece.now)) }
        ensures failed { IsErr result → self.new.failed ≡ true }
        ensures still { self.old.failed ≡ true → (self.new.failed ≡ true) × IsErr result }
    {
        if self.failed {
            return Err(AllocError);
        }
        let read = self.scan.read(piece);
        self.failed = read.is_err();
        read
    }

    /// The input that the bytes say that the reader stands for, or their first fault. It answers
    /// `OutOfMemory` where the reader has failed, and where there is no memory for the input.
    pub fn end(self, alloc: Global) -> Result<Input, ReadRefusal>
        ensures input { (bytes : List ℕ) → StandsFor self bytes → IsRead bytes result }
        ensures failed { self.failed ≡ true → result ≡ Err OutOfMemory }
    {
        match self.end_with_graph(alloc) {
            Ok((input, _)) => Ok(input),
            Err(refusal) => Err(refusal),
        }
    }

    /// The same, and the graph of the input's network, which is made to see that each node has a
    /// walk from node 0.
    pub fn end_with_graph(self, alloc: Global) -> Result<(Input, Graph), ReadRefusal>
        ensures input { (bytes : List ℕ) → StandsFor self bytes → IsReadWithGraph bytes result }
        ensures failed { self.failed ≡ true → result ≡ Err OutOfMemory }
    {
        if self.failed {
            return Err(ReadRefusal::OutOfMemory);
        }
        match self.scan.finish() {
            Ok((known, lines)) => answer(alloc, known, lines),
            Err(refusal) => Err(refusal),
        }
    }
}

/// The input that bytes say, of which there are at most `MAX_BYTES`, or their first fault.
pub fn read_input(alloc: Global, bytes: &[u8]) -> Result<Input, ReadRefusal>
    requires { length bytes.now ≤ most_bytes }
    ensures { IsRead bytes.now result }
{
    let mut reader = Reader::new(alloc)?;
    reader.feed(bytes)?;
    reader.end(alloc)
}
