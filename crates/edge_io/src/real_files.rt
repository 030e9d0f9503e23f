//! Files of the machine.

use crate::count::Count;
use crate::faults::Failed;
use crate::files::Files;
use std::io::Read;
use std::marker::Model;
use std::{fs, rt, str};

/// Files of the machine, by their paths. The folder isn't told; of the file that is being read the
/// machine may tell what is left. Whatever the machine refuses is a fault, as is a name that isn't
/// UTF-8.
#[derive(Drop)]
pub struct RealFiles<'a, R: rt::Files> {
    rt: &'a R,
    file: Option<R::File>,
    faults: Count,
    begun: Count,
    mark: Count,
}

impl<'a, R: rt::Files> Model for RealFiles<'a, R> {
    ghost use Rattle.std.specs.Prelude.{is_some, option_and_then};
    ghost use Rattle.edge_io.specs.Real.{ReaderState};

    ghost Value = { ReaderState };

    ghost view = { λ s. record {
      is_open = is_some s.file;
      left = option_and_then (λ f. R.File.remaining f) s.file;
      faults = s.faults;
      begun = s.begun;
      mark = s.mark;
    } };
}

impl<'a, R: rt::Files> RealFiles<'a, R> {
    ghost use Rattle.std.specs.Prelude.{◌≡◌, false, None};
    ghost use Rattle.edge_io.specs.Causes.{counted};

    pub fn new(rt: &'a R) -> Self
        ensures { result ≡ record { is_open = false; left = None; faults = 0; begun = 0; mark = 0 } }
    {
        RealFiles {
            rt,
            file: None,
            faults: Count::zero(),
            begun: Count::zero(),
            mark: Count::zero(),
        }
    }

    // Counts a fault.
    fn fault(&mut self) -> Failed
        ensures { self.new ≡ record self.old { faults = counted self.old.faults } }
    {
        self.faults.rise();
        Failed
    }
}

impl<'a, R: rt::Files> Files for RealFiles<'a, R> {
    ghost use Rattle.std.specs.Prelude.{◌≡◌, None, OnOk, if◌then◌else◌, is_ok, IsTrue};
    ghost use Rattle.std.specs.Io.{ReadsAtMost};
    ghost use Rattle.std.specs.Io.KnownBytes.{ReadConsumes};
    ghost use Rattle.std.specs.Str.{IsUtf8};
    ghost use Rattle.edge_io.specs.Causes.{counted};

    ghost told = { λ _. None };

    ghost is_ready = { λ s. s.is_open };

    ghost left = { λ s. s.left };

    ghost faults = { λ s. s.faults };

    ghost begun = { λ s. s.begun };

    ghost mark = { λ s. s.mark };

    fn begin(&mut self, name: &[u8]) -> Result<(), Failed>
        ensures utf8 { OnOk result (IsUtf8 name.now) }
        ensures after { self.new ≡ record {
          is_open = is_ok result;
          left = self.new.left;
          faults = if is_ok result then self.old.faults else counted self.old.faults;
          begun = counted self.old.begun;
          mark = self.old.faults;
        } }
    {
        self.begun.rise();
        self.mark = self.faults;
        self.file = None;
        let Ok(path) = str::from_utf8(name) else {
            return Err(self.fault());
        };
        match fs::open(self.rt, path) {
            Ok(file) => {
                self.file = Some(file);
                Ok(())
            }
            Err(_) => Err(self.fault()),
        }
    }

    fn read(&mut self, piece: &mut [u8]) -> Result<usize, Failed>
        requires { IsTrue self.old.is_open }
        ensures bound { ReadsAtMost result piece.new }
        ensures bytes { ReadConsumes self.old.left self.new.left result piece.new }
        ensures after { self.new ≡ record self.old {
          left = self.new.left;
          faults = if is_ok result then self.old.faults else counted self.old.faults;
        } }
    {
        let Some(file) = &mut self.file else {
            unreachable!()
        };
        match file.read(piece) {
            Ok(count) => Ok(count),
            Err(_) => Err(self.fault()),
        }
    }
}
