// The input of a program.
ghost use Rattle.std.specs.Prelude.{OnOk};
ghost use Rattle.std.specs.Io.KnownBytes.{IsAtEnd};
ghost use Rattle.options.specs.Pieces.{Handed};

use anyhow::bail;
use std::fs::File;
use std::io;
use std::io::{ErrorKind, Read, Stdin};

const PIECE: usize = 32 * 1024;

#[derive(Drop)]
pub enum Input {
    Standard(Stdin),
    // a file with its name
    File(String, File),
}

impl Read for Input {
    fn read(&mut self, piece: &mut [u8]) -> io::Result<usize> {
        match self {
            Input::Standard(input) => input.read(piece),
            Input::File(_, file) => file.read(piece),
        }
    }
}

// Hands the whole input to `each`, piece after piece and in order, so that no more than 32 KiB are held, whatever the input's length.
// The first failure, of a read or of `each`, ends it.
pub fn for_each_piece<R: Read, F: FnMut(&[u8]) -> anyhow::Result<()>>(
    input: &mut R,
    mut each: F,
) -> anyhow::Result<()>
    requires { F.IsAlwaysCallable each }
    ensures end { OnOk result (IsAtEnd (R.remaining input.new)) }
    ensures handed { OnOk result ((after : F) × Handed F.FnMut each after (R.remaining input.old) (R.remaining input.new)) }
{
    let mut piece = [0u8; PIECE];
    // kept: a reader need not come to an end and a loop has to, so its turns are bounded
    for _ in 0..u64::MAX {
        match input.read(&mut piece) {
            Ok(0) => return Ok(()),
            Ok(count) => each(&piece[0..count])?,
            Err(fault) if fault.kind() == ErrorKind::Interrupted => {}
            Err(fault) => return Err(fault.into()),
        }
    }
    bail!("gave up on an input that does not end")
}
