//! Writers of the machine as sinks.

use crate::count::Count;
use crate::faults::Failed;
use crate::sink::Sink;
use std::io::Write;
use std::marker::Model;

/// A writer as a sink. Nothing of its bytes is told. Whatever the writer refuses is a fault, as is
/// its answer that it took none of a piece that isn't empty.
#[derive(Drop)]
pub struct RealSink<W: Write + Drop> {
    writer: W,
    faults: Count,
}

impl<W: Write + Drop> Model for RealSink<W> {
    ghost use Rattle.edge_io.specs.Real.{WriterState};

    ghost Value = { WriterState W };

    ghost view = { λ s. record { writer = s.writer; faults = s.faults } };
}

impl<W: Write + Drop> RealSink<W> {
    ghost use Rattle.std.specs.Prelude.{◌≡◌};

    pub fn new(writer: W) -> Self
        ensures { result ≡ record { writer = writer; faults = 0 } }
    {
        RealSink {
            writer,
            faults: Count::zero(),
        }
    }
}

impl<W: Write + Drop> Sink for RealSink<W> {
    ghost use Rattle.std.specs.Prelude.{◌≡◌, ◌<◌, None, IfOk, if◌then◌else◌, is_ok};
    ghost use Rattle.std.specs.Io.{WritesAtMost};
    ghost use Rattle.std.specs.Io.KnownBytes.{WriteAppends};
    ghost use Rattle.edge_io.specs.Causes.{counted};

    ghost written = { λ _. None };

    ghost faults = { λ s. s.faults };

    fn write(&mut self, piece: &[u8]) -> Result<usize, Failed>
        ensures some { IfOk result (λ n. 0 < n) }
        ensures bound { WritesAtMost result piece.now }
        ensures passed { WriteAppends (W.contents self.old.writer) (W.contents self.new.writer) result piece.now }
        ensures fault { self.new.faults ≡ (if is_ok result then self.old.faults else counted self.old.faults) }
    {
        match self.writer.write(piece) {
            Ok(count) if count > 0 => Ok(count),
            _ => {
                self.faults.rise();
                Err(Failed)
            }
        }
    }
}
