//! Where an explanation is written, and whether that failed.
ghost use Rattle.std.specs.Prelude.{ℕ, List, Option, IfErr, OnOk, ⊤};
ghost use Rattle.std.specs.Io.KnownBytes.{Appends};
ghost use Rattle.trace_explain.specs.declared.explain_fault.ExplainFault.{ExplainFault};
ghost use Rattle.trace_explain.specs.Trace.{IsOfSink, IsOfWriting};

use crate::explain_fault::ExplainFault;
use std::io::Write;

/// Where an explanation is written. Code that is generic over it can't make up its faults.
pub trait Sink {
    /// The bytes that it holds, if they are known.
    ghost contents: { Self → Option (List ℕ) };
    /// It has failed so.
    ghost fails: { ExplainFault → Type 0 };

    /// Writes these bytes.
    ///
    /// # Errors
    ///
    /// `Closed` if nobody reads the output any more, else `Write`. How much it took is unknown.
    fn put(&mut self, bytes: &[u8]) -> Result<(), ExplainFault>
        ensures written { OnOk result (Appends (contents self.old) (contents self.new) bytes.now) }
        ensures fault { IfErr result IsOfWriting }
        ensures fails { IfErr result (IsOfSink fails) };
}

impl<W: Write> Sink for W {
    ghost contents = { W.contents };

    ghost fails = { λ _. ⊤ };

    fn put(&mut self, bytes: &[u8]) -> Result<(), ExplainFault> {
        self.write_all(bytes)
            .map_err(|error| ExplainFault::of_writing(&error))
    }
}
