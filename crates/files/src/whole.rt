// The first part of a file: all its records up to the first that is cut or none.
ghost use Rattle.std.specs.Prelude.{◌≡◌};
ghost use Rattle.files.specs.Laws.{IsFirstPart};
ghost use Rattle.files.specs.Reading.{is_cut as cut_in};

use crate::reading::read;
use lines::fault::Fault;

// The longest front of a file that is whole records, as a part of the file.
pub fn whole(file: &[u8]) -> &[u8]
    ensures { IsFirstPart file.now result.now }
{
    let mut rest = file;
    loop {
        let Ok((_, behind)) = read(rest) else {
            return &file[..file.len() - rest.len()];
        };
        rest = behind;
    }
}

// Whether more bytes may make a record of these.
pub fn is_cut(bytes: &[u8]) -> bool
    ensures { result ≡ cut_in bytes.now }
{
    matches!(read(bytes), Err(Fault::Cut))
}
